//! Whether a workunit's row, an instance or the marks are as they were.

ghost use Rattle.std.specs.Prelude.{◌≡◌, ◌↔◌, IsTrue};
ghost use Rattle.wu_core.specs.Storable.{bare};
ghost use Rattle.wu_store.specs.Differences.{HasSameDecision, HasSameJob, HasSameProgress, HasSameReport, HasSameStates};

use wu_core::{Bytes, Instance, Marks, Name, Params, Workunit};

/// Returns whether two workunits have the same parameters.
fn is_same_params(a: &Params, b: &Params) -> bool
    ensures { IsTrue result ↔ (a.now ≡ b.now) }
{
    a.min_quorum() == b.min_quorum()
        && a.target_nresults() == b.target_nresults()
        && a.max_error_results() == b.max_error_results()
        && a.max_total_results() == b.max_total_results()
        && a.max_success_results() == b.max_success_results()
        && a.delay_bound() == b.delay_bound()
        && a.credit() == b.credit()
}

/// Returns whether both are the same bytes.
fn is_same_bytes(a: &Bytes, b: &Bytes) -> bool
    ensures { IsTrue result ↔ (a.now ≡ b.now) }
{
    a.as_slice() == b.as_slice()
}

/// Returns whether both are the same name.
fn is_same_name(a: &Name, b: &Name) -> bool
    ensures { IsTrue result ↔ (a.now ≡ b.now) }
{
    a.as_str() == b.as_str()
}

/// Returns whether both are the same host, or both are none.
fn is_same_host(a: &Option<Name>, b: &Option<Name>) -> bool
    ensures { IsTrue result ↔ (a.now ≡ b.now) }
{
    match (a, b) {
        (Some(a), Some(b)) => is_same_name(a, b),
        (None, None) => true,
        _ => false,
    }
}

/// Returns whether a batch gave the same number, name, parameters and input for both.
fn is_same_job(a: &Workunit, b: &Workunit) -> bool
    ensures { IsTrue result ↔ HasSameJob a.now b.now }
{
    a.number == b.number
        && is_same_name(&a.name, &b.name)
        && is_same_params(&a.params, &b.params)
        && is_same_bytes(&a.input, &b.input)
}

/// Returns whether both are the same number of a canonical result, or both are none.
fn is_same_canonical(a: Option<u32>, b: Option<u32>) -> bool
    ensures { IsTrue result ↔ (a ≡ b) }
{
    a == b
}

/// Returns whether the same was decided on both.
fn is_same_decision(a: &Workunit, b: &Workunit) -> bool
    ensures { IsTrue result ↔ HasSameDecision a.now b.now }
{
    a.error_mask.is_same(b.error_mask)
        && is_same_canonical(a.canonical, b.canonical)
        && a.assimilate == b.assimilate
}

/// Returns whether both have the same state of deletion and the same moment of assimilation.
fn is_same_progress(a: &Workunit, b: &Workunit) -> bool
    ensures { IsTrue result ↔ HasSameProgress a.now b.now }
{
    a.file_delete == b.file_delete && a.done_at == b.done_at
}

/// Returns whether two workunits have the same row.
pub fn is_same_row(a: &Workunit, b: &Workunit) -> bool
    // It is true exactly where both are the same workunit except for their instances and their
    // class.
    ensures { IsTrue result ↔ (bare a.now ≡ bare b.now) }
{
    is_same_job(a, b) && is_same_decision(a, b) && is_same_progress(a, b)
}

/// Returns whether both have the same states.
fn is_same_states(a: &Instance, b: &Instance) -> bool
    ensures { IsTrue result ↔ HasSameStates a.now b.now }
{
    a.server_state == b.server_state
        && a.outcome == b.outcome
        && a.validate_state == b.validate_state
        && a.file_delete == b.file_delete
}

/// Returns whether both have the same host, moments and output.
fn is_same_report(a: &Instance, b: &Instance) -> bool
    ensures { IsTrue result ↔ HasSameReport a.now b.now }
{
    is_same_host(&a.host, &b.host)
        && a.sent_at == b.sent_at
        && a.deadline == b.deadline
        && a.received_at == b.received_at
        && is_same_bytes(&a.output, &b.output)
}

/// Returns whether two instances are the same.
pub fn is_same_instance(a: &Instance, b: &Instance) -> bool
    // It is true exactly where both are the same instance.
    ensures { IsTrue result ↔ (a.now ≡ b.now) }
{
    is_same_states(a, b) && is_same_report(a, b)
}

/// Returns whether two workunits have the same marks.
pub fn is_same_marks(a: &Marks, b: &Marks) -> bool
    // It is true exactly where both are the same marks.
    ensures { IsTrue result ↔ (a.now ≡ b.now) }
{
    a.wake == b.wake
        && a.to_validate == b.to_validate
        && a.to_assimilate == b.to_assimilate
        && a.to_delete == b.to_delete
        && a.purge_from == b.purge_from
}
