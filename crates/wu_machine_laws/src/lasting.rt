//! Laws of what lasts over any list of requests: each function's contract is one. Requests have values in range, as
//! each command has (`has_values` of `wu_machine`).

ghost use Rattle.wu_machine_laws.specs.Lasting.{GrantsLast, ArchiveLasts, ImportsLast, NextNumberRises, CanonicalResultsLast, NamesLast, VerdictsLast, GivenUpLasts, HostsLast, HostsStayApart, HostsAreApart, NamesStayTaken, NumbersAreGivenOnce, ClassesStay, IdleWorldsAreOneClass, OneClassStaysByStep, OneClassStays, OneClassSince};

/// Proves that grants are permanent.
pub fn grants_last()
    // No list of requests removes or changes a grant.
    ensures { GrantsLast }
{}

/// Proves that archived rows are permanent.
pub fn the_archive_lasts()
    // No list of requests removes or changes an archived row.
    ensures { ArchiveLasts }
{}

/// Proves that imports are permanent.
pub fn imports_last()
    // No list of requests removes or changes an import.
    ensures { ImportsLast }
{}

/// Proves that the next number never falls.
pub fn the_next_number_rises()
    // After any list of requests the next number is at least what it was.
    ensures { NextNumberRises }
{}

/// Proves that a canonical result is final.
pub fn canonical_results_last()
    // From a sound world on, with values in range, a workunit keeps its canonical result as long as
    // it is present.
    ensures { CanonicalResultsLast }
{}

/// Proves that a workunit's name is final.
pub fn names_last()
    // From a sound world on, with values in range, a workunit keeps its name as long as it is
    // present.
    ensures { NamesLast }
{}

/// Proves that final verdicts are final.
pub fn verdicts_last()
    // From a sound world on, with values in range, an instance keeps a final verdict as long as its
    // workunit is present.
    ensures { VerdictsLast }
{}

/// Proves that giving up is final.
pub fn what_is_given_up_stays_so()
    // From a sound world on, with values in range, a workunit that is given up stays given up as
    // long as it is present.
    ensures { GivenUpLasts }
{}

/// Proves that an instance stays with its host.
pub fn hosts_last()
    // From a sound world on, with values in range, a sent instance keeps its host as long as its
    // workunit is present.
    ensures { HostsLast }
{}

/// Proves that no host gets a second instance of a workunit.
pub fn hosts_stay_apart()
    // If in a sound world no host has two instances of a workunit, none has after any list of
    // requests with values in range.
    ensures { HostsStayApart }
{}

/// Proves that in a project no host has two instances of a workunit.
pub fn hosts_are_apart()
    // From a fresh project on, with values in range, no host ever has two instances of a workunit.
    ensures { HostsAreApart }
{}

/// Proves that a name is not used twice.
pub fn names_stay_taken()
    // From a sound world on, with values in range, a name of a workunit or an archived row stays
    // taken.
    ensures { NamesStayTaken }
{}

/// Proves that a number is not used twice.
pub fn numbers_are_given_once()
    // From a sound world on, with values in range, no further workunit has a number below that
    // world's next number, so none is given twice.
    ensures { NumbersAreGivenOnce }
{}

/// Proves that only a file of classes changes classes.
pub fn classes_stay()
    // Over a list of requests without a file of classes each host keeps its class.
    ensures { ClassesStay }
{}

/// Proves that a world without active instances is of one class for each workunit.
pub fn idle_worlds_are_one_class()
    // If no workunit has an active instance, all active instances of each are of one class,
    // whatever classes hosts have.
    ensures { IdleWorldsAreOneClass }
{}

/// Proves exactly which requests keep the active instances of each workunit in one class.
pub fn one_class_stays_by_step()
    // If in a sound world each workunit's active instances are of its class, a request keeps that
    // exactly under two conditions. No row of a new file of reports brings a late success from a
    // host of another class than its workunit's. No file of classes changes the class of an active
    // instance's host.
    ensures { OneClassStaysByStep }
{}

/// Proves that such requests keep the active instances of each workunit in one class.
pub fn one_class_stays()
    // If in a sound world each workunit's active instances are of its class, a list of requests
    // with values in range keeps that. Each request has to meet the conditions of
    // `one_class_stays_by_step`.
    ensures { OneClassStays }
{}

/// Proves the same from a fresh project on.
pub fn one_class_since()
    // From a fresh project on, a list of requests as in `one_class_stays` leaves each workunit's
    // active instances in its class.
    ensures { OneClassSince }
{}
