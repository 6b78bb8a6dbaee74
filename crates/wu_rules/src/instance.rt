//! Tests of one instance.

ghost use Rattle.std.specs.Prelude.{◌≡◌};
ghost use Rattle.wu_rules.specs.Instances.{is_unsent, is_in_progress, is_over, is_success, is_new, is_viable, is_active, is_kept, is_error, is_overdue};

use wu_core::{FileDelete, Instance, Moment, Outcome, ServerState, ValidateState};

/// Returns whether the instance is unsent.
pub fn is_unsent(instance: &Instance) -> bool
    // The result is true exactly if the server state is UNSENT.
    ensures { result ≡ is_unsent instance.now }
{
    instance.server_state == ServerState::Unsent
}

/// Returns whether the instance is at a host.
pub fn is_in_progress(instance: &Instance) -> bool
    // The result is true exactly if the server state is IN_PROGRESS.
    ensures { result ≡ is_in_progress instance.now }
{
    instance.server_state == ServerState::InProgress
}

/// Returns whether the instance has ended, with any outcome.
pub fn is_over(instance: &Instance) -> bool
    // The result is true exactly if the server state is OVER.
    ensures { result ≡ is_over instance.now }
{
    instance.server_state == ServerState::Over
}

/// Returns whether the instance is a success: over with outcome SUCCESS.
pub fn is_success(instance: &Instance) -> bool
    // The result is true exactly if the instance is OVER with SUCCESS.
    ensures { result ≡ is_success instance.now }
{
    is_over(instance) && instance.outcome == Outcome::Success
}

/// Returns whether the instance is a success that has no verdict yet.
pub fn is_new(instance: &Instance) -> bool
    // The result is true exactly if the instance is a success with verdict INIT.
    ensures { result ≡ is_new instance.now }
{
    is_success(instance) && instance.validate_state == ValidateState::Init
}

/// Returns whether the instance is a success without a final verdict.
pub fn is_viable(instance: &Instance) -> bool
    // The result is true exactly if the instance is a success with verdict INIT or INCONCLUSIVE.
    ensures { result ≡ is_viable instance.now }
{
    is_success(instance)
        && matches!(
            instance.validate_state,
            ValidateState::Init | ValidateState::Inconclusive
        )
}

/// Returns whether the instance keeps its workunit in the class of its host: it is in progress, or a viable success.
pub fn is_active(instance: &Instance) -> bool
    // The result is true exactly if the instance is in progress, or a viable success.
    ensures { result ≡ is_active instance.now }
{
    is_in_progress(instance) || is_viable(instance)
}

/// Returns whether the instance is a success that is not INVALID.
pub fn is_kept(instance: &Instance) -> bool
    // The result is true exactly if the instance is a success whose verdict is not INVALID.
    ensures { result ≡ is_kept instance.now }
{
    is_success(instance) && instance.validate_state != ValidateState::Invalid
}

/// Returns whether the instance ended with an error, of its host or of validation.
pub fn is_error(instance: &Instance) -> bool
    // The result is true exactly if the outcome is CLIENT_ERROR or VALIDATE_ERROR.
    ensures { result ≡ is_error instance.now }
{
    matches!(
        instance.outcome,
        Outcome::ClientError | Outcome::ValidateError
    )
}

/// Returns whether the instance is in progress with a deadline before the moment.
pub fn is_overdue(instance: &Instance, now: Moment) -> bool
    // The result is true exactly if the instance is in progress with a deadline before the moment.
    ensures { result ≡ is_overdue now instance.now }
{
    match instance.deadline {
        Some(deadline) => is_in_progress(instance) && deadline.is_before(now),
        None => false,
    }
}
