//! Whether an instance is well formed, can be stored, and is in a state that this project sets.

ghost use Rattle.std.specs.Prelude.{◌≡◌, ◌↔◌, IsTrue, All};
ghost use Rattle.wu_core.specs.Formed.{IsInstance};
ghost use Rattle.wu_core.specs.Storable.{MayBeInstance, IsStoredInstance, IsHost, AreMoments};
ghost use Rattle.wu_audit.specs.Parts.{MayHaveVerdict};
ghost use Rattle.wu_rules.specs.Consistent.{IsPossible};

use wu_core::{
    FileDelete, Instance, LONGEST_OUTPUT, Moment, Name, Outcome, ServerState, ValidateState,
};
use wu_rules::is_success;

/// Returns whether host, time of sending and deadline are there together, and as the states require.
pub fn is_formed_instance(instance: &Instance) -> bool
    // It is true exactly where host, sending time and deadline are all there or none: none while
    // unsent, all in progress and after success.
    ensures { IsTrue result ↔ IsInstance instance.now }
{
    let has_host = instance.host.is_some();
    let is_unsent = instance.server_state == ServerState::Unsent;
    let is_in_progress = instance.server_state == ServerState::InProgress;
    instance.sent_at.is_some() == has_host
        && instance.deadline.is_some() == has_host
        && !(is_unsent && has_host)
        && !(is_in_progress && !has_host)
        && !(is_success(instance) && !has_host)
}

/// Returns whether the instance may have its verdict: any after a success, INVALID where it was refused as no result,
/// and else none.
fn may_have_verdict(instance: &Instance) -> bool
    ensures { IsTrue result ↔ MayHaveVerdict instance.now }
{
    if instance.outcome == Outcome::ValidateError {
        instance.server_state == ServerState::Over
            && instance.validate_state == ValidateState::Invalid
    } else {
        is_success(instance) || instance.validate_state == ValidateState::Init
    }
}

/// Returns whether the instance has only states that this project sets, and a verdict only after a success or a refusal
/// as no result.
pub fn is_possible_instance(instance: &Instance) -> bool
    // It is true exactly where all states are ones that this project sets, and the verdict is one
    // that the instance may have.
    ensures { IsTrue result ↔ IsPossible instance.now }
{
    instance.server_state != ServerState::Inactive
        && instance.outcome != Outcome::CouldntSend
        && instance.file_delete != FileDelete::Error
        && may_have_verdict(instance)
}

/// Makes known that a host's name is one.
fn know_host(host: &Option<Name>)
    ensures { IsHost host.now }
{
    if let Some(name) = host {
        name.as_bytes();
    }
}

/// Makes known that the moments of an instance are in their ranges.
fn know_moments(instance: &Instance)
    ensures { AreMoments instance.now.sent_at instance.now.deadline instance.now.received_at }
{
    if let Some(sent_at) = instance.sent_at {
        sent_at.seconds();
    }
    if let Some(deadline) = instance.deadline {
        deadline.seconds();
    }
    if let Some(received_at) = instance.received_at {
        received_at.seconds();
    }
}

/// Returns whether the values of the instance are in their ranges: its output is not too long, and the rest is so by
/// its type.
fn may_be_instance(instance: &Instance) -> bool
    ensures { IsTrue result ↔ MayBeInstance instance.now }
{
    know_host(&instance.host);
    know_moments(instance);
    instance.output.len() <= LONGEST_OUTPUT
}

/// Returns whether a row of an instance may represent this one.
pub fn is_stored_instance(instance: &Instance) -> bool
    // It is true exactly where the instance is well formed and its values are in their ranges.
    ensures { IsTrue result ↔ IsStoredInstance instance.now }
{
    may_be_instance(instance) && is_formed_instance(instance)
}
