//! What is wrong with a world that is not sound.

ghost use Rattle.std.specs.Prelude.{◌≡◌};
ghost use Rattle.wu_audit.specs.Words.{place_of_wrong, table_of, table_word, wrong_word};

/// A table of which a row is wrong.
#[derive(Clone, Copy)]
pub enum AuditTable {
    Project,
    Workunit,
    Grant,
    Archived,
    Import,
    HostClass,
}

impl AuditTable {
    /// Returns the name of the table.
    pub fn word(self) -> &'static str
        // It is the name of the table in the schema.
        ensures { result.now ≡ table_word self }
    {
        match self {
            AuditTable::Project => "project",
            AuditTable::Workunit => "workunit",
            AuditTable::Grant => "credit_grant",
            AuditTable::Archived => "archived",
            AuditTable::Import => "import",
            AuditTable::HostClass => "host_class",
        }
    }
}

/// What is wrong with a world: one thing that a sound world has not. Each except the first and the last names a row by
/// its place in its table, from 0.
#[derive(Clone, Copy)]
pub enum Wrong {
    /// The next number is 0, or more than one above the greatest that there may be.
    NextNumber,
    /// The workunit is not well formed, by its states and moments or an instance's.
    WorkunitForm(usize),
    /// A value of the workunit or of an instance is out of its range.
    WorkunitValues(usize),
    /// A value of the archived row is out of its range.
    ArchivedValues(usize),
    /// A verdict of the import is invalid for such a file.
    ImportVerdicts(usize),
    /// The states and verdicts of the workunit do not agree.
    WorkunitStates(usize),
    /// The mask of the archived row has a bit that is never set.
    ArchivedMask(usize),
    /// The number of the workunit was not given.
    WorkunitNumber(usize),
    /// The number of the workunit is not above that of the one before it.
    WorkunitOrder(usize),
    /// An earlier workunit has the name of this one.
    WorkunitTwice(usize),
    /// The number of the archived row was not given.
    ArchivedNumber(usize),
    /// An earlier archived row has the number of this one.
    ArchivedTwice(usize),
    /// An earlier archived row has the name of this one.
    ArchivedNameTwice(usize),
    /// The workunit of the grant was given no number, or its number or its credit is out of its range.
    GrantValues(usize),
    /// An earlier grant is for the instance of this one.
    GrantTwice(usize),
    /// An earlier import has the kind and the name of this one.
    ImportTwice(usize),
    /// The workunit of the grant is there, and has no valid instance of its number, or another host or credit.
    GrantAstray(usize),
    /// A valid instance of the workunit has no grant.
    GrantMissing(usize),
    /// The workunit of the archived row is there, and is not assimilated, or has other values.
    ArchivedAstray(usize),
    /// The workunit is assimilated, and has no archived row.
    ArchivedMissing(usize),
    /// The workunit is not assimilated, and an archived row has its name.
    NameTaken(usize),
    /// The class of the host is out of its range.
    ClassValues(usize),
    /// The name of the host is not above that of the one before it.
    ClassOrder(usize),
    /// A host or a workunit has a class, which the version has not.
    EarlyClasses,
}

impl Wrong {
    /// Returns the table whose row is wrong.
    pub fn table(self) -> AuditTable
        // It is the table that the definition gives for this violation.
        ensures { result ≡ table_of self }
    {
        match self {
            Wrong::NextNumber | Wrong::EarlyClasses => AuditTable::Project,
            Wrong::WorkunitForm(_)
            | Wrong::WorkunitValues(_)
            | Wrong::WorkunitStates(_)
            | Wrong::WorkunitNumber(_)
            | Wrong::WorkunitOrder(_)
            | Wrong::WorkunitTwice(_)
            | Wrong::GrantMissing(_)
            | Wrong::ArchivedMissing(_)
            | Wrong::NameTaken(_) => AuditTable::Workunit,
            Wrong::GrantValues(_) | Wrong::GrantTwice(_) | Wrong::GrantAstray(_) =>
                AuditTable::Grant,
            Wrong::ArchivedValues(_)
            | Wrong::ArchivedMask(_)
            | Wrong::ArchivedNumber(_)
            | Wrong::ArchivedTwice(_)
            | Wrong::ArchivedNameTwice(_)
            | Wrong::ArchivedAstray(_) => AuditTable::Archived,
            Wrong::ImportVerdicts(_) | Wrong::ImportTwice(_) => AuditTable::Import,
            Wrong::ClassValues(_) | Wrong::ClassOrder(_) => AuditTable::HostClass,
        }
    }

    /// Returns the place of the row in its table, from 0, or `None` for the project.
    pub fn place(self) -> Option<usize>
        // It is the place that the violation carries; `None` for the first and the last one.
        ensures { result ≡ place_of_wrong self }
    {
        match self {
            Wrong::NextNumber | Wrong::EarlyClasses => None,
            Wrong::WorkunitForm(place)
            | Wrong::WorkunitValues(place)
            | Wrong::ArchivedValues(place)
            | Wrong::ImportVerdicts(place)
            | Wrong::WorkunitStates(place)
            | Wrong::ArchivedMask(place)
            | Wrong::WorkunitNumber(place)
            | Wrong::WorkunitOrder(place)
            | Wrong::WorkunitTwice(place)
            | Wrong::ArchivedNumber(place)
            | Wrong::ArchivedTwice(place)
            | Wrong::ArchivedNameTwice(place)
            | Wrong::GrantValues(place)
            | Wrong::GrantTwice(place)
            | Wrong::ImportTwice(place)
            | Wrong::GrantAstray(place)
            | Wrong::GrantMissing(place)
            | Wrong::ArchivedAstray(place)
            | Wrong::ArchivedMissing(place)
            | Wrong::NameTaken(place)
            | Wrong::ClassValues(place)
            | Wrong::ClassOrder(place) => Some(place),
        }
    }

    /// Returns what is wrong with the row, in words that continue after its table and its key.
    pub fn word(self) -> &'static str
        // The words are those that are written for this violation.
        ensures { result.now ≡ wrong_word self }
    {
        match self {
            Wrong::NextNumber => "has no next number in range",
            Wrong::WorkunitForm(_) => "is not well formed",
            Wrong::WorkunitValues(_) => "has a value out of its range",
            Wrong::ArchivedValues(_) => "has a value out of its range",
            Wrong::ImportVerdicts(_) => "has a verdict that such a file has not",
            Wrong::WorkunitStates(_) => "has states or verdicts that do not agree",
            Wrong::ArchivedMask(_) => "has an error that is never set",
            Wrong::WorkunitNumber(_) => "has a number that was not given",
            Wrong::WorkunitOrder(_) => "has a number that is not above the one before",
            Wrong::WorkunitTwice(_) => "has the name of an earlier one",
            Wrong::ArchivedNumber(_) => "has a number that was not given",
            Wrong::ArchivedTwice(_) => "has the number of an earlier one",
            Wrong::ArchivedNameTwice(_) => "has the name of an earlier one",
            Wrong::GrantValues(_) => "has a value out of its range",
            Wrong::GrantTwice(_) => "is for the instance of an earlier one",
            Wrong::ImportTwice(_) => "has the kind and the name of an earlier one",
            Wrong::GrantAstray(_) => "is not for a valid instance, its host and its credit",
            Wrong::GrantMissing(_) => "has a valid instance without a grant",
            Wrong::ArchivedAstray(_) => "is not what is kept of its workunit",
            Wrong::ArchivedMissing(_) => "is assimilated without an archived row",
            Wrong::NameTaken(_) => "has the name of an archived one",
            Wrong::ClassValues(_) => "has a class out of its range",
            Wrong::ClassOrder(_) => "has a name that is not above the one before",
            Wrong::EarlyClasses => "has classes that its version has not",
        }
    }
}
