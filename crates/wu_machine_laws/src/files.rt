//! Laws of files of sends, of reports and of classes: each function's contract is one, for every world and every file.

ghost use Rattle.wu_machine_laws.specs.Files.{AppliesFiles};
ghost use Rattle.wu_machine_laws.specs.Rows.{LeavesUnnamedInstances, RowsSeeRows};

/// Proves what a new file of sends, reports or classes does as a whole.
pub fn applies_files()
    // A new file of sends or reports has one verdict for each row, and its first row is applied
    // exactly if it may be. After the file the instance of each applied row is as the row says. If
    // no row was applied, all workunits are as before. After a new file of classes, a host has the
    // class of the last row that names it, and any other host keeps its class.
    ensures { AppliesFiles }
{}

/// Proves that each row of a new file is judged by what the rows before it left.
pub fn rows_see_rows()
    // Each row of a new file of sends or reports gets the verdict of its workunit, as the rows
    // before it left that. It gets `unknown` if no workunit has its name. It is applied exactly if
    // it may be. An applied row changes its own instance as it says, and no other instance and no
    // other workunit. A skipped row changes nothing.
    ensures { RowsSeeRows }
{}

/// Proves which instances a new file leaves.
pub fn leaves_unnamed_instances()
    // A new file of sends or reports leaves each instance that none of its applied rows names as it
    // was.
    ensures { LeavesUnnamedInstances }
{}
