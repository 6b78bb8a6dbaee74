//! The subcommands of the command line.

ghost use Rattle.std.specs.Prelude.{◌≡◌};
ghost use Rattle.wu_arguments.specs.CommandLine.{options_of, subcommand_name, subcommand_named};

use crate::option::LineOption;
use wu_core::ImportKind;
use wu_rules::Pass;

/// A subcommand as the command line knows it.
#[derive(Clone, Copy)]
pub struct SubcommandForm {
    /// Its word on the command line.
    pub name: &'static str,
    /// Its options, in the order of its usage line.
    pub options: &'static [LineOption],
    /// What help says of it.
    pub about: &'static str,
    /// A line that an operator may write.
    pub example: &'static str,
}

/// What a line asks for.
#[derive(Clone, Copy)]
pub enum Subcommand {
    Import(ImportKind),
    Pass(Pass),
    Cancel,
    Cycle,
    Show,
    Imports,
    Status,
    Upgrade,
    Script,
    Session,
    Check,
    Lint,
    Backup,
    Outputs,
    Explain,
}

/// All subcommands, in the order of help.
pub const SUBCOMMANDS: [Subcommand; 22] = [
    Subcommand::Import(ImportKind::Batch),
    Subcommand::Import(ImportKind::Sent),
    Subcommand::Import(ImportKind::Reported),
    Subcommand::Import(ImportKind::Classes),
    Subcommand::Pass(Pass::Transition),
    Subcommand::Pass(Pass::Validate),
    Subcommand::Pass(Pass::Assimilate),
    Subcommand::Pass(Pass::Delete),
    Subcommand::Pass(Pass::Purge),
    Subcommand::Cancel,
    Subcommand::Cycle,
    Subcommand::Show,
    Subcommand::Imports,
    Subcommand::Status,
    Subcommand::Upgrade,
    Subcommand::Script,
    Subcommand::Session,
    Subcommand::Check,
    Subcommand::Lint,
    Subcommand::Backup,
    Subcommand::Outputs,
    Subcommand::Explain,
];

impl Subcommand {
    /// Returns the subcommand as the command line knows it.
    pub fn form(self) -> SubcommandForm
        // The name is that of the subcommand.
        ensures name { result.name.now ≡ subcommand_name self }
        // The options are those of the subcommand, in the order of its usage line.
        ensures options { result.options.now ≡ options_of self }
    {
        match self {
            Subcommand::Import(ImportKind::Batch) => SubcommandForm {
                name: "batch",
                options: &[
                    LineOption::Database,
                    LineOption::Name,
                    LineOption::Jobs,
                    LineOption::Template,
                ],
                about: "Add the jobs of a file as workunits, all of them or none",
                example: "Example: lintelthyme batch --db project.db --name b1 --jobs jobs.csv --template job.toml",
            },
            Subcommand::Import(ImportKind::Sent) => SubcommandForm {
                name: "sent",
                options: &[LineOption::Database, LineOption::Name, LineOption::Sends],
                about: "Record which instances were sent to which hosts; a row that does not fit is skipped",
                example: "Example: lintelthyme sent --db project.db --name s1 --file sends.csv",
            },
            Subcommand::Import(ImportKind::Reported) => SubcommandForm {
                name: "reported",
                options: &[LineOption::Database, LineOption::Name, LineOption::Reports],
                about: "Record what hosts reported of their instances; a row that does not fit is skipped",
                example: "Example: lintelthyme reported --db project.db --name r1 --file reports.csv",
            },
            Subcommand::Import(ImportKind::Classes) => SubcommandForm {
                name: "classes",
                options: &[LineOption::Database, LineOption::Name, LineOption::Classes],
                about: "Set the classes of hosts; while a workunit is out, it goes to hosts of one class",
                example: "Example: lintelthyme classes --db project.db --name c1 --file classes.csv",
            },
            Subcommand::Pass(Pass::Transition) => SubcommandForm {
                name: "transition",
                options: &[LineOption::Database, LineOption::Now, LineOption::Limit],
                about: "Time out what is overdue, make the instances that are wanted, close what is given up",
                example: "Example: lintelthyme transition --db project.db --now 2026-03-01T12:00:00Z --limit 1000",
            },
            Subcommand::Pass(Pass::Validate) => SubcommandForm {
                name: "validate",
                options: &[LineOption::Database, LineOption::Limit],
                about: "Compare results, find canonical ones and grant credit",
                example: "Example: lintelthyme validate --db project.db --limit 1000",
            },
            Subcommand::Pass(Pass::Assimilate) => SubcommandForm {
                name: "assimilate",
                options: &[LineOption::Database, LineOption::Now, LineOption::Limit],
                about: "Close what is ready, and keep its canonical output for good",
                example: "Example: lintelthyme assimilate --db project.db --now 2026-03-01T12:00:00Z --limit 1000",
            },
            Subcommand::Pass(Pass::Delete) => SubcommandForm {
                name: "delete",
                options: &[LineOption::Database, LineOption::Limit],
                about: "Delete the inputs and outputs that nobody needs any more",
                example: "Example: lintelthyme delete --db project.db --limit 1000",
            },
            Subcommand::Pass(Pass::Purge) => SubcommandForm {
                name: "purge",
                options: &[
                    LineOption::Database,
                    LineOption::Now,
                    LineOption::Limit,
                    LineOption::MinAge,
                ],
                about: "Remove workunits that are through and were assimilated long enough ago",
                example: "Example: lintelthyme purge --db project.db --now 2026-03-08T12:00:00Z --limit 1000 --min-age 604800",
            },
            Subcommand::Cancel => SubcommandForm {
                name: "cancel",
                options: &[LineOption::Database, LineOption::Workunit],
                about: "Give up a workunit that is undecided",
                example: "Example: lintelthyme cancel --db project.db --workunit job_1",
            },
            Subcommand::Cycle => SubcommandForm {
                name: "cycle",
                options: &[
                    LineOption::Database,
                    LineOption::Now,
                    LineOption::Limit,
                    LineOption::MinAge,
                ],
                about: "Run transition, validate, transition, assimilate, transition, delete and purge in a row",
                example: "Example: lintelthyme cycle --db project.db --now 2026-03-01T12:00:00Z --limit 1000 --min-age 604800",
            },
            Subcommand::Show => SubcommandForm {
                name: "show",
                options: &[LineOption::Database, LineOption::View],
                about: "Print a view of the project",
                example: "Example: lintelthyme show --db project.db --view summary",
            },
            Subcommand::Imports => SubcommandForm {
                name: "imports",
                options: &[LineOption::Database, LineOption::Imported],
                about: "Print a line for each file that was imported, with how many rows were applied and skipped",
                example: "Example: lintelthyme imports --db project.db --name s1",
            },
            Subcommand::Status => SubcommandForm {
                name: "status",
                options: &[LineOption::Database, LineOption::Now],
                about: "Print what waits for each pass, what is undecided, and what is overdue at a moment",
                example: "Example: lintelthyme status --db project.db --now 2026-03-01T12:00:00Z",
            },
            Subcommand::Upgrade => SubcommandForm {
                name: "upgrade",
                options: &[LineOption::Database],
                about: "Bring an older project to the schema of this program",
                example: "Example: lintelthyme upgrade --db project.db",
            },
            Subcommand::Script => SubcommandForm {
                name: "script",
                options: &[LineOption::Database, LineOption::Commands],
                about: "Run the commands of a file in one opening, up to the first fault",
                example: "Example: lintelthyme script --db project.db --file day.txt\nEach line is a command without --db. A line that begins with # is left out. After repeat, a pass runs until it handles\nless than its limit. After try, a command or a view is run, and the script goes on also where it is refused.\nThe last lines may be backup --to FILE and outputs --to FOLDER: these run after the others, if none ended the script.",
            },
            Subcommand::Session => SubcommandForm {
                name: "session",
                options: &[LineOption::Database],
                about: "Run each line of standard input as it comes, in one opening, up to the end of input",
                example: "Example: lintelthyme session --db project.db",
            },
            Subcommand::Check => SubcommandForm {
                name: "check",
                options: &[LineOption::Checked],
                about: "Tell whether a database holds a sound project; nothing is made or changed",
                example: "Example: lintelthyme check --db project.db",
            },
            Subcommand::Lint => SubcommandForm {
                name: "lint",
                options: &[LineOption::Kind, LineOption::Linted],
                about: "Tell whether a file reads as its import or its script would read it; no database is opened",
                example: "Example: lintelthyme lint --kind jobs --file jobs.csv",
            },
            Subcommand::Backup => SubcommandForm {
                name: "backup",
                options: &[LineOption::Checked, LineOption::To],
                about: "Check a copy of a project and write it into a new file, without a log; the project is not changed",
                example: "Example: lintelthyme backup --db project.db --to backup.db",
            },
            Subcommand::Outputs => SubcommandForm {
                name: "outputs",
                options: &[LineOption::Checked, LineOption::Folder, LineOption::Only],
                about: "Check a copy of a project and write each archived canonical output into a file named for its workunit",
                example: "Example: lintelthyme outputs --db project.db --to outputs",
            },
            Subcommand::Explain => SubcommandForm {
                name: "explain",
                options: &[
                    LineOption::Topic,
                    LineOption::Detail,
                    LineOption::FaultDetail,
                    LineOption::FaultCause,
                    LineOption::Further,
                    LineOption::Last,
                ],
                about: "Tell what a fault, status, view, file or key means, and what to do",
                example: "Example: lintelthyme explain F3",
            },
        }
    }

    /// Returns the subcommand of this name.
    pub fn named(name: &str) -> Option<Subcommand>
        // Each of the twenty-two names gives its subcommand, and any other text `None`.
        ensures { result ≡ subcommand_named name.now }
    {
        for one in SUBCOMMANDS {
            if name == one.form().name {
                return Some(one);
            }
        }
        None
    }
}
