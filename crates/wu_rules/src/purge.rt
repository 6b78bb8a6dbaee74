//! Which workunits may be purged.

ghost use Rattle.std.specs.Prelude.{◌≡◌, ◌+◌, ◌≤◌, nat_le, false};
ghost use Rattle.std.specs.List.{list_all};
ghost use Rattle.std.specs.Option.{option_map_or};
ghost use Rattle.wu_core.specs.Limits.{longest_age};
ghost use Rattle.wu_rules.specs.Assimilation.{is_spent, is_purgeable};

use crate::instance::is_over;
use wu_core::{Assimilate, FileDelete, Instance, Instances, Moment, Workunit};

/// Returns whether the instance is over and its output deleted.
fn is_spent(instance: &Instance) -> bool
    ensures { result ≡ is_spent instance.now }
{
    is_over(instance) && instance.file_delete == FileDelete::Done
}

/// Returns whether each instance is over and its output deleted.
pub fn is_all_spent(instances: &Instances) -> bool
    // The result is true exactly if each instance is over and its output is deleted.
    ensures { result ≡ list_all is_spent instances.now }
{
    instances.iter().all(is_spent)
}

/// Returns whether the workunit was assimilated at least `min_age` seconds before the moment.
fn has_aged(done_at: Option<Moment>, now: Moment, min_age: u64) -> bool
    requires { min_age ≤ longest_age }
    ensures { result ≡ option_map_or (λ moment. nat_le (moment + min_age) now) done_at false }
{
    match done_at {
        Some(moment) => moment.seconds() + min_age <= now.seconds(),
        None => false,
    }
}

/// Returns whether the workunit may be purged. It was assimilated at least `min_age` seconds ago (at most 365 days),
/// all its instances are over, and its input and outputs are deleted.
#[tactic(auto, unfolding(crate::specs::Assimilation::is_purgeable))]
pub fn purgeable(workunit: &Workunit, now: Moment, min_age: u64) -> bool
    // The least age is at most 31,536,000 seconds, 365 days.
    requires { min_age ≤ longest_age }
    // The result is true exactly if the workunit is DONE for at least the least age, all instances
    // are over, and all files are deleted.
    ensures { result ≡ is_purgeable workunit.now now min_age }
{
    workunit.assimilate == Assimilate::Done
        && workunit.file_delete == FileDelete::Done
        && is_all_spent(&workunit.instances)
        && has_aged(workunit.done_at, now, min_age)
}
