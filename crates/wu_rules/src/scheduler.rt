//! Sends of instances to hosts, and reports of hosts.

ghost use Rattle.std.specs.Prelude.{◌≡◌, ◌≢◌, ◌+◌, ◌&&◌, not};
ghost use Rattle.std.specs.List.{list_any};
ghost use Rattle.wu_core.specs.Statuses.{outcome_of};
ghost use Rattle.wu_rules.specs.Instances.{is_over};
ghost use Rattle.wu_rules.specs.Reporting.{is_no_reply, is_sent_after, report_verdict_of, report_verdict_in, reported_as, reported_in};
ghost use Rattle.wu_rules.specs.Sending.{due_at, is_bound_elsewhere, is_of, send_verdict_of, send_verdict_in, sent_in};
ghost use Rattle.wu_rules.specs.declared.verdicts.ReportVerdict.TheVariants as report_verdict;
ghost use Rattle.wu_rules.specs.declared.verdicts.SendVerdict.TheVariants as send_verdict;

use crate::count::has_active;
use crate::instance::{is_over, is_unsent};
use crate::verdicts::{ReportVerdict, SendVerdict};
use wu_core::{
    Bytes, Deadline, FileDelete, Instance, Instances, Moment, Name, Outcome, ServerState, Status,
    ValidateState, Workunit,
};

/// Returns whether the instance is this host's.
fn is_of(instance: &Instance, host: &Name) -> bool
    ensures { result ≡ is_of host.now instance.now }
{
    match &instance.host {
        Some(its) => its == host,
        None => false,
    }
}

/// Returns whether an instance is this host's.
fn has_one_of(instances: &Instances, host: &Name) -> bool
    ensures { result ≡ list_any (is_of host.now) instances.now }
{
    instances.iter().any(|instance| is_of(instance, host))
}

/// Returns whether the workunit is active and its class is another.
fn is_bound_elsewhere(workunit: &Workunit, class: u32) -> bool
    ensures { result ≡ is_bound_elsewhere workunit.now class }
{
    has_active(workunit) && workunit.class != class
}

/// Returns the verdict on a send of the instance of this number to the host of this class.
fn send_verdict(workunit: &Workunit, n: u32, host: &Name, class: u32) -> SendVerdict
    ensures { result ≡ send_verdict_in workunit.now n host.now class }
{
    match workunit.instances.as_slice().get(n as usize) {
        None => SendVerdict::Unknown,
        Some(instance) if !is_unsent(instance) => SendVerdict::NotUnsent,
        Some(_) if has_one_of(&workunit.instances, host) => SendVerdict::SameHost,
        Some(_) if is_bound_elsewhere(workunit, class) => SendVerdict::Class,
        Some(_) => SendVerdict::Applied,
    }
}

/// Returns the deadline of an instance that is sent at the moment.
fn deadline_of(workunit: &Workunit, sent_at: Moment) -> Deadline
    ensures { result ≡ sent_at + workunit.now.params.delay_bound }
{
    sent_at.after(workunit.params.delay_bound())
}

/// Makes the instance IN_PROGRESS at the host.
fn put_in_progress(instance: &mut Instance, host: Name, sent_at: Moment, deadline: Deadline)
    ensures { instance.new ≡ due_at deadline host sent_at instance.old }
{
    instance.server_state = ServerState::InProgress;
    instance.host = Some(host);
    instance.sent_at = Some(sent_at);
    instance.deadline = Some(deadline);
}

/// Sends the instance of this number to the host of this class. It is then in progress from this moment, due after the
/// workunit's delay, and the workunit has the class.
///
/// The instance has to be unsent, the host may have none of the workunit, and an active workunit has to be of this
/// class. Otherwise nothing changes, and the verdict says why.
pub fn send(workunit: &mut Workunit, n: u32, host: Name, class: u32, moment: Moment) -> SendVerdict
    // The verdict is the first that holds of `Unknown`, `NotUnsent`, `SameHost` and `Class`, or
    // `Applied`.
    ensures verdict { result ≡ send_verdict_in workunit.old n host class }
    // If applied, the instance is in progress at the host, due after the workunit's delay, the
    // workunit has the host's class, and nothing else changes.
    ensures applied { result ≡ send_verdict.Applied
        → workunit.new ≡ sent_in workunit.old n host class moment }
    // If not applied, the workunit stays as it was.
    ensures skipped { result ≢ send_verdict.Applied → workunit.new ≡ workunit.old }
{
    let verdict = send_verdict(workunit, n, &host, class);
    if verdict == SendVerdict::Applied {
        let deadline = deadline_of(workunit, moment);
        let instance = &mut workunit.instances.as_mut_slice()[n as usize];
        put_in_progress(instance, host, moment, deadline);
        workunit.class = class;
    }
    verdict
}

/// Returns whether the instance was sent after the moment.
fn is_sent_after(instance: &Instance, moment: Moment) -> bool
    ensures { result ≡ is_sent_after moment instance.now }
{
    match instance.sent_at {
        Some(sent_at) => moment < sent_at,
        None => false,
    }
}

/// Returns whether the instance is over, with another outcome than NO_REPLY.
fn has_ended(instance: &Instance) -> bool
    ensures { result ≡ (is_over instance.now && not (is_no_reply instance.now.outcome)) }
{
    is_over(instance) && instance.outcome != Outcome::NoReply
}

/// Returns the verdict on the host's report of the instance.
fn report_verdict_of(instance: &Instance, host: &Name, moment: Moment) -> ReportVerdict
    ensures { result ≡ report_verdict_of host.now moment instance.now }
{
    if instance.host.is_none() {
        ReportVerdict::NotSent
    } else if !is_of(instance, host) {
        ReportVerdict::WrongHost
    } else if is_sent_after(instance, moment) {
        ReportVerdict::BeforeSent
    } else if has_ended(instance) {
        ReportVerdict::Over
    } else {
        ReportVerdict::Applied
    }
}

/// Returns the verdict on the host's report of the instance of this number.
fn report_verdict(workunit: &Workunit, n: u32, host: &Name, moment: Moment) -> ReportVerdict
    ensures { result ≡ report_verdict_in workunit.now n host.now moment }
{
    match workunit.instances.as_slice().get(n as usize) {
        Some(instance) => report_verdict_of(instance, host, moment),
        None => ReportVerdict::Unknown,
    }
}

/// Returns the outcome of an instance that is reported with the status.
fn outcome_of(status: Status) -> Outcome
    ensures { result ≡ outcome_of status }
{
    match status {
        Status::Success => Outcome::Success,
        Status::ClientError => Outcome::ClientError,
        Status::Detached => Outcome::ClientDetached,
    }
}

/// Ends the instance as its host reports it.
fn end_as(instance: &mut Instance, received_at: Moment, status: Status, output: Bytes)
    ensures { instance.new ≡ reported_as received_at status output instance.old }
{
    instance.server_state = ServerState::Over;
    instance.outcome = outcome_of(status);
    instance.validate_state = ValidateState::Init;
    instance.file_delete = FileDelete::Init;
    instance.received_at = Some(received_at);
    instance.output = output;
}

/// Applies the host's report of the instance of this number. It is then over at this moment with the reported outcome
/// and output, and waits for the validator.
///
/// The instance has to have been sent to this host, not after the moment, and must not be over, except with NO_REPLY.
/// Otherwise nothing changes, and the verdict says why.
pub fn report(
    workunit: &mut Workunit,
    n: u32,
    host: &Name,
    moment: Moment,
    status: Status,
    output: Bytes,
) -> ReportVerdict
    // The verdict is the first that holds of `Unknown`, `NotSent`, `WrongHost`, `BeforeSent` and
    // `Over`, or `Applied`.
    ensures verdict { result ≡ report_verdict_in workunit.old n host.now moment }
    // If applied, the instance is over with the reported outcome and output and without a verdict,
    // and nothing else changes.
    ensures applied { result ≡ report_verdict.Applied
        → workunit.new ≡ reported_in workunit.old n moment status output }
    // If not applied, the workunit stays as it was.
    ensures skipped { result ≢ report_verdict.Applied → workunit.new ≡ workunit.old }
{
    let verdict = report_verdict(workunit, n, host, moment);
    if verdict == ReportVerdict::Applied {
        let instance = &mut workunit.instances.as_mut_slice()[n as usize];
        end_as(instance, moment, status, output);
    }
    verdict
}
