//! The options of the command line.

ghost use Rattle.std.specs.Prelude.{◌≡◌};
ghost use Rattle.wu_arguments.specs.CommandLine.{is_required_value, option_name, value_of_option};

/// The help of an option that names a file of so many rows or lines at most.
macro_rules! limited {
    ($file:literal, $parts:literal) => {
        concat!($file, "; at most 1,000 ", $parts, " and 1,048,576 bytes")
    };
}

/// What follows an option on a line.
#[derive(Clone, Copy)]
pub enum OptionValue {
    /// A text, which has to be given.
    Text,
    /// A text that may be left out.
    TextIfAny,
    /// A whole number of 64 bits, which has to be given.
    Number,
    /// A word that stands alone, with no option's name before it, and may be left out.
    Word,
}

impl OptionValue {
    /// Returns whether the value has to be given.
    pub fn is_required(self) -> bool
        // A text and a number have to be given; a word and a text that may be left out do not.
        ensures { result ≡ is_required_value self }
    {
        match self {
            OptionValue::Text | OptionValue::Number => true,
            OptionValue::TextIfAny | OptionValue::Word => false,
        }
    }
}

/// An option as the command line knows it.
#[derive(Clone, Copy)]
pub struct OptionForm {
    /// Its name, without the two hyphens.
    pub name: &'static str,
    pub value: OptionValue,
    /// What help calls its value.
    pub value_name: &'static str,
    /// What help says of it.
    pub help: &'static str,
}

/// An option of the command line. Each takes one value.
#[derive(Clone, Copy)]
pub enum LineOption {
    /// The file that holds the project.
    Database,
    /// The file that is checked.
    Checked,
    /// The file that a backup makes.
    To,
    /// The folder in which outputs become files.
    Folder,
    /// The name of a workunit, where one alone is asked for.
    Only,
    /// The name of an import.
    Name,
    /// The name of imports that are shown alone.
    Imported,
    /// A file of jobs.
    Jobs,
    /// A file with the parameters of a batch's jobs.
    Template,
    /// A file of sends.
    Sends,
    /// A file of reports.
    Reports,
    /// A file of hosts' classes.
    Classes,
    /// A file of commands.
    Commands,
    /// The moment of a pass.
    Now,
    /// How many workunits a pass changes at most.
    Limit,
    /// How old a workunit is at least that is removed.
    MinAge,
    /// The name of a workunit.
    Workunit,
    /// What is shown.
    View,
    /// What is explained.
    Topic,
    /// Which view or file is explained, or the name of a fault that is explained by its number.
    Detail,
    /// What a fault that is explained says first, after its name.
    FaultDetail,
    /// The cause that a fault that is explained says last.
    FaultCause,
    /// The word after that, where the fault stands after its line or its status. It is not looked at.
    Further,
    /// The last word of such a fault. It is not looked at.
    Last,
    /// What a file is for.
    Kind,
    /// A file that is read and not imported.
    Linted,
}

impl LineOption {
    /// Returns the option as the command line knows it.
    pub fn form(self) -> OptionForm
        // The name is that of the option, without the two hyphens.
        ensures name { result.name.now ≡ option_name self }
        // The value is of the option's kind.
        ensures value { result.value ≡ value_of_option self }
    {
        match self {
            LineOption::Database => OptionForm {
                name: "db",
                value: OptionValue::Text,
                value_name: "PATH",
                help: "The database file of the project; it is made where it is absent",
            },
            LineOption::Checked => OptionForm {
                name: "db",
                value: OptionValue::Text,
                value_name: "PATH",
                help: "The database file that is checked; it is neither made nor changed",
            },
            LineOption::To => OptionForm {
                name: "to",
                value: OptionValue::Text,
                value_name: "FILE",
                help: "The file that is made; a path that is there is refused",
            },
            LineOption::Folder => OptionForm {
                name: "to",
                value: OptionValue::Text,
                value_name: "FOLDER",
                help: "The folder of the files, which has to be there; a file with the same bytes is left, and any other refused",
            },
            LineOption::Only => OptionForm {
                name: "name",
                value: OptionValue::TextIfAny,
                value_name: "NAME",
                help: "The workunit whose output alone is written; without it, all are",
            },
            LineOption::Name => OptionForm {
                name: "name",
                value: OptionValue::Text,
                value_name: "NAME",
                help: "The name of the import: 1 to 64 letters, digits, '_', '.' or '-'. The same name and content again changes nothing",
            },
            LineOption::Imported => OptionForm {
                name: "name",
                value: OptionValue::TextIfAny,
                value_name: "NAME",
                help: "The imports of this name alone, each with its skipped rows; without it, all are listed",
            },
            LineOption::Jobs => OptionForm {
                name: "jobs",
                value: OptionValue::Text,
                value_name: "FILE",
                help: limited!("CSV file of jobs with the header name,input", "rows"),
            },
            LineOption::Template => OptionForm {
                name: "template",
                value: OptionValue::TextIfAny,
                value_name: "FILE",
                help: "TOML file of the jobs' parameters, at most 65,536 bytes; each parameter that is absent has its default",
            },
            LineOption::Sends => OptionForm {
                name: "file",
                value: OptionValue::Text,
                value_name: "FILE",
                help: limited!(
                    "CSV file of sends with the header result,host,moment",
                    "rows"
                ),
            },
            LineOption::Reports => OptionForm {
                name: "file",
                value: OptionValue::Text,
                value_name: "FILE",
                help: limited!(
                    "CSV file of reports with the header result,host,moment,status,output",
                    "rows"
                ),
            },
            LineOption::Classes => OptionForm {
                name: "file",
                value: OptionValue::Text,
                value_name: "FILE",
                help: limited!("CSV file of classes with the header host,class", "rows"),
            },
            LineOption::Commands => OptionForm {
                name: "file",
                value: OptionValue::Text,
                value_name: "FILE",
                help: limited!(
                    "Text file of a command a line, without the program's name and without --db",
                    "lines"
                ),
            },
            LineOption::Now => OptionForm {
                name: "now",
                value: OptionValue::Text,
                value_name: "MOMENT",
                help: "The moment in UTC as YYYY-MM-DDTHH:MM:SSZ, from 1970 to 2099; date -u +%FT%TZ prints the present one",
            },
            LineOption::Limit => OptionForm {
                name: "limit",
                value: OptionValue::Number,
                value_name: "COUNT",
                help: "How many workunits are changed at most, the first by number: 1 to 1000",
            },
            LineOption::MinAge => OptionForm {
                name: "min-age",
                value: OptionValue::Number,
                value_name: "SECONDS",
                help: "How many seconds ago a workunit was assimilated at least: 0 to 31536000",
            },
            LineOption::Workunit => OptionForm {
                name: "workunit",
                value: OptionValue::Text,
                value_name: "NAME",
                help: "The name of the workunit",
            },
            LineOption::View => OptionForm {
                name: "view",
                value: OptionValue::Text,
                value_name: "VIEW",
                help: "workunits, results, hosts, archive, summary or classes",
            },
            LineOption::Topic => OptionForm {
                name: "topic",
                value: OptionValue::Word,
                value_name: "TOPIC",
                help: "What is explained; without it, the topics are listed",
            },
            LineOption::Detail => OptionForm {
                name: "which",
                value: OptionValue::Word,
                value_name: "WHICH",
                help: "Which view, or which file; of a fault, its name",
            },
            LineOption::FaultDetail => OptionForm {
                name: "detail",
                value: OptionValue::Word,
                value_name: "DETAIL",
                help: "Of a fault, the next word as it is printed",
            },
            LineOption::FaultCause => OptionForm {
                name: "cause",
                value: OptionValue::Word,
                value_name: "CAUSE",
                help: "Of a fault, the last word as it is printed",
            },
            LineOption::Further => OptionForm {
                name: "more",
                value: OptionValue::Word,
                value_name: "MORE",
                help: "Of a fault after its line or its status, the next word",
            },
            LineOption::Last => OptionForm {
                name: "last",
                value: OptionValue::Word,
                value_name: "LAST",
                help: "Of such a fault, the last word",
            },
            LineOption::Kind => OptionForm {
                name: "kind",
                value: OptionValue::Text,
                value_name: "KIND",
                help: "jobs, sends, reports, classes, template or script",
            },
            LineOption::Linted => OptionForm {
                name: "file",
                value: OptionValue::Text,
                value_name: "FILE",
                help: "The file that is read; of a script, also the files of its lines",
            },
        }
    }
}
