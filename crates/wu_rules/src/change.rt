//! Changes of instances in place.

ghost use Rattle.std.specs.Prelude.{◌≡◌, map};
ghost use Rattle.wu_rules.specs.Instances.{timed_out, closed, given_up, readied_assimilate};

use crate::instance::{is_overdue, is_unsent, is_viable};
use wu_core::{Assimilate, Instance, Instances, Moment, Outcome, ServerState, ValidateState};

/// Ends an instance that is unsent as DIDNT_NEED.
pub fn close(instance: &mut Instance)
    // An unsent instance is over with DIDNT_NEED, and any other stays as it was.
    ensures { instance.new ≡ closed instance.old }
{
    if is_unsent(instance) {
        instance.server_state = ServerState::Over;
        instance.outcome = Outcome::DidntNeed;
    }
}

/// Ends each unsent instance as DIDNT_NEED.
pub fn close_all(instances: &mut Instances)
    // Each unsent instance is over with DIDNT_NEED, and each other stays as it was.
    ensures { instances.new ≡ map closed instances.old }
{
    'each: for instance in instances.as_mut_slice() {
        close(instance);
    }
}

/// Ends an instance whose deadline is before the moment as NO_REPLY.
pub fn time_out(instance: &mut Instance, now: Moment)
    // An instance in progress with a deadline before the moment is over with NO_REPLY, and any
    // other stays as it was.
    ensures { instance.new ≡ timed_out now instance.old }
{
    if is_overdue(instance, now) {
        instance.server_state = ServerState::Over;
        instance.outcome = Outcome::NoReply;
    }
}

/// Ends each instance whose deadline is before the moment as NO_REPLY.
pub fn time_out_all(instances: &mut Instances, now: Moment)
    // Each instance in progress with a deadline before the moment is over with NO_REPLY, and each
    // other stays as it was.
    ensures { instances.new ≡ map (timed_out now) instances.old }
{
    'each: for instance in instances.as_mut_slice() {
        time_out(instance, now);
    }
}

/// Ends what a workunit that is given up still waits for, of one instance.
pub fn give_up(instance: &mut Instance)
    // A viable success is NO_CHECK, an unsent instance is over with DIDNT_NEED, and any other stays
    // as it was.
    ensures { instance.new ≡ given_up instance.old }
{
    if is_viable(instance) {
        instance.validate_state = ValidateState::NoCheck;
    } else {
        close(instance);
    }
}

/// Ends what a workunit that is given up still waits for, of each instance.
pub fn give_up_all(instances: &mut Instances)
    // Each viable success is NO_CHECK, each unsent instance is over with DIDNT_NEED, and each other
    // stays as it was.
    ensures { instances.new ≡ map given_up instances.old }
{
    'each: for instance in instances.as_mut_slice() {
        give_up(instance);
    }
}

/// Makes a workunit without a decision READY for assimilation.
pub fn ready_assimilate(assimilate: &mut Assimilate)
    // The state INIT becomes READY, and any other stays.
    ensures { assimilate.new ≡ readied_assimilate assimilate.old }
{
    if *assimilate == Assimilate::Init {
        *assimilate = Assimilate::Ready;
    }
}
