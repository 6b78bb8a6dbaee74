//! What is made of a copy of a project, and how that is reported.

ghost use Rattle.wu_arguments.specs.declared.order.Export.TheVariants.{Backup, Outputs};
ghost use Rattle.wu_process.specs.Backups.{may_become};
ghost use Rattle.wu_cli.specs.Exports.{Exports};
ghost use Rattle.wu_process.specs.Exports.{MakesExport};

use crate::backup::make_backup;
use crate::files::HostFiles;
use crate::new_file::MakeFile;
use crate::outputs::keep_of_path;
use std::io::Write;
use wu_arguments::{Export, ExportOrder, OutputFiles};
use wu_cli::{Exported, KeepFile, MakeExport, Trouble, report_made};

/// Makes a backup of the database at a path, as `make_backup`.
fn backup_of<F: MakeFile + KeepFile>(
    rt: &HostRuntime,
    path: &str,
    to: &str,
    files: &F,
    is_open: bool,
) -> Result<Exported, Trouble>
    ensures { MakesExport (F.MakeFile.makes files.now) (F.KeepFile.keeps files.now)
        path.now (Backup to.now) result }
{
    match make_backup(rt, path, to, files, is_open) {
        Ok(counts) => Ok(Exported::Backup(counts)),
        Err(trouble) => Err(trouble),
    }
}

/// Keeps the outputs of the database at a path, as `keep_of_path`.
fn outputs_of<F: MakeFile + KeepFile>(
    rt: &HostRuntime,
    path: &str,
    asked: &OutputFiles,
    files: &F,
    is_open: bool,
) -> Result<Exported, Trouble>
    ensures { MakesExport (F.MakeFile.makes files.now) (F.KeepFile.keeps files.now)
        path.now (Outputs asked.now) result }
{
    match keep_of_path(rt, path, asked, files, is_open) {
        Ok(counts) => Ok(Exported::Outputs(counts)),
        Err(trouble) => Err(trouble),
    }
}

/// Makes what is asked of a copy of the sound project in the database at a path, which this process may have open.
fn make_export<F: MakeFile + KeepFile>(
    rt: &HostRuntime,
    path: &str,
    export: &Export,
    files: &F,
    is_open: bool,
) -> Result<Exported, Trouble>
    ensures { MakesExport (F.MakeFile.makes files.now) (F.KeepFile.keeps files.now)
        path.now export.now result }
{
    match export {
        Export::Backup(to) => backup_of(rt, path, to.as_str(), files, is_open),
        Export::Outputs(asked) => outputs_of(rt, path, asked, files, is_open),
    }
}

/// Makes what is asked of a copy of the sound project in a database, and reports it on the writer. The database is only
/// read. Of what is not made the trouble is why, and nothing goes out.
pub fn export<F: MakeFile + KeepFile, O: Write>(
    rt: &HostRuntime,
    asked: &ExportOrder,
    files: &F,
    out: &mut O,
) -> Result<(), Trouble>
    // A backup or outputs are made of a copy of the database, and the line that reports them goes
    // out. Else the reason is reported, and nothing goes out.
    ensures { Exports O.contents
        (MakesExport (F.MakeFile.makes files.now) (F.KeepFile.keeps files.now))
        asked.now.db asked.now.export out.old out.new result }
{
    let made = make_export(rt, asked.db.as_str(), &asked.export, files, false);
    report_made(out, asked.export.place(), made)
}

impl MakeExport for HostFiles<'_> {
    ghost exports = { λ _ path export made. MakesExport may_become may_become path export made };

    fn export(&self, path: &str, export: &Export) -> Result<Exported, Trouble> {
        make_export(self.runtime(), path, export, self, true)
    }
}
