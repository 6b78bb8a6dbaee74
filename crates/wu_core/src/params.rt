//! The parameters of a workunit.

ghost use Rattle.std.specs.Prelude.{◌≡◌, ◌≤◌, false, pos, IfSome, IfNone, IfOk, IfErr, OnErr};
ghost use Rattle.wu_core.specs.Limits.{highest_quorum, highest_target, longest_delay, most_credit, most_instances};
ghost use Rattle.wu_core.specs.Parameters.{default_parameters, is_between, IsParameters, Parameters, values_of};
ghost use Rattle.wu_core.specs.Templates.{is_whole_between, listed, parameters_to, template_parameters, whole_at};
ghost use Rattle.wu_core.specs.declared.fault.Fault.TheVariants.{BadTemplate};

use crate::fault::TemplateKey::{
    Credit, DelayBound, MaxErrorResults, MaxSuccessResults, MaxTotalResults, MinQuorum,
    TargetNresults,
};
use crate::fault::{Fault, TemplateKey};
use crate::limits::{HIGHEST_QUORUM, HIGHEST_TARGET, LONGEST_DELAY, MOST_CREDIT, MOST_INSTANCES};
use std::marker::Model;

/// The parameters of a workunit: how many results it needs, its limits, the delay of each result and its credit.
///
/// Each value is in the range of a template, except the target, which the validator may raise to 101.
#[derive(Clone, Copy)]
pub struct Params {
    min_quorum: u32,
    target_nresults: u32,
    max_error_results: u32,
    max_total_results: u32,
    max_success_results: u32,
    delay_bound: u32,
    credit: u32,
}

impl Model for Params {
    ghost use Rattle.wu_core.specs.Parameters.{Parameters, IsParameters};

    ghost Value = { Parameters };

    ghost view = { λ p. record {
      min_quorum = p.min_quorum;
      target_nresults = p.target_nresults;
      max_error_results = p.max_error_results;
      max_total_results = p.max_total_results;
      max_success_results = p.max_success_results;
      delay_bound = p.delay_bound;
      credit = p.credit;
    } };

    ghost invariant = { λ p. IsParameters (record {
      min_quorum = p.min_quorum;
      target_nresults = p.target_nresults;
      max_error_results = p.max_error_results;
      max_total_results = p.max_total_results;
      max_success_results = p.max_success_results;
      delay_bound = p.delay_bound;
      credit = p.credit;
    }) };

    ghost inverse = { λ p. record {
      min_quorum = p.min_quorum;
      target_nresults = p.target_nresults;
      max_error_results = p.max_error_results;
      max_total_results = p.max_total_results;
      max_success_results = p.max_success_results;
      delay_bound = p.delay_bound;
      credit = p.credit;
    } };
}

/// Returns the value if it is from `low` to `high`, both included; otherwise `None`.
fn in_range(value: i64, low: u32, high: u32) -> Option<u32>
    // A result is the value, and in the range.
    ensures within { IfSome result (λ n. (low ≤ n) × (n ≤ high) × (value ≡ pos n)) }
    // Without a result the value is out of the range.
    ensures outside { IfNone result (is_between low high value ≡ false) }
{
    match u32::try_from(value) {
        Ok(number) if low <= number && number <= high => Some(number),
        _ => None,
    }
}

/// Returns the value of a template's key if it is a whole number from `low` to `high`; otherwise `BadTemplate` with the
/// key.
fn template_value(key: TemplateKey, value: Option<i64>, low: u32, high: u32) -> Result<u32, Fault>
    // A result is the value, and in the range.
    ensures within { IfOk result (λ n. (low ≤ n) × (n ≤ high) × (value ≡ Some (pos n))) }
    // A fault is `BadTemplate` with this key.
    ensures key { IfErr result (λ fault. fault ≡ BadTemplate key) }
    // On a fault the value is no whole number, or out of the range.
    ensures outside { OnErr result (is_whole_between low high value ≡ false) }
{
    match value {
        Some(value) => in_range(value, low, high).ok_or(Fault::BadTemplate(key)),
        None => Err(Fault::BadTemplate(key)),
    }
}

/// Returns the values as values that may be missing.
fn each_whole(values: [i64; 7]) -> [Option<i64>; 7]
    ensures { whole_at result ≡ listed values }
{
    let [quorum, target, errors, total, successes, delay, credit] = values;
    [
        Some(quorum),
        Some(target),
        Some(errors),
        Some(total),
        Some(successes),
        Some(delay),
        Some(credit),
    ]
}

impl Params {
    /// Returns the parameters with a template's values, in the order of the fields. The first value out of its range is
    /// `BadTemplate` with its key. The target is at least the quorum and at most 20.
    pub fn checked(values: [i64; 7]) -> Result<Self, Fault>
        // The result has these values if each is in a template's range; otherwise it is
        // `BadTemplate` with the first key out of range.
        ensures { result ≡ template_parameters (listed values) }
    {
        Params::from_template(each_whole(values))
    }

    /// Returns the parameters as `checked` does, of values that may be missing. `None` stands for a value that is no
    /// whole number, and is at fault as one out of its range.
    pub fn from_template(values: [Option<i64>; 7]) -> Result<Self, Fault>
        // The result has these values if each is there and in a template's range; otherwise it is
        // `BadTemplate` with the first key at fault.
        ensures { result ≡ template_parameters (whole_at values) }
    {
        Params::within(values, HIGHEST_QUORUM)
    }

    /// Returns the parameters of a workunit with these values, in the order of the fields. Returns `None` if one is out
    /// of its range. The target is at least the quorum and at most 101.
    pub fn from_values(values: [i64; 7]) -> Option<Self>
        // Values that are in a workunit's ranges read as the parameters with these values.
        ensures found { (p : Parameters) → IsParameters p → values_of p ≡ values → result ≡ Some p }
        // Parameters that are returned have exactly these values.
        ensures valued { IfSome result (λ p. values_of p ≡ values) }
    {
        Params::within(each_whole(values), HIGHEST_TARGET).ok()
    }

    /// Returns the parameters with these values, in the order of the fields. Each has to be a whole number in its
    /// range, and the target at least the quorum and at most `most_target`; otherwise returns the first key at fault.
    fn within(values: [Option<i64>; 7], most_target: u32) -> Result<Self, Fault>
        // The greatest target is at most 101.
        requires { most_target ≤ highest_target }
        // The result has these values if each is a whole number in its range; otherwise it is
        // `BadTemplate` with the first key at fault.
        ensures { result ≡ parameters_to most_target (whole_at values) }
    {
        let [quorum, target, errors, total, successes, delay, credit] = values;
        let min_quorum = template_value(MinQuorum, quorum, 1, HIGHEST_QUORUM)?;
        Ok(Params {
            min_quorum,
            target_nresults: template_value(TargetNresults, target, min_quorum, most_target)?,
            max_error_results: template_value(MaxErrorResults, errors, 0, MOST_INSTANCES)?,
            max_total_results: template_value(MaxTotalResults, total, 1, MOST_INSTANCES)?,
            max_success_results: template_value(MaxSuccessResults, successes, 0, MOST_INSTANCES)?,
            delay_bound: template_value(DelayBound, delay, 1, LONGEST_DELAY)?,
            credit: template_value(Credit, credit, 0, MOST_CREDIT)?,
        })
    }

    /// Returns how many viable successes there have to be before the validator decides: 1 to 20.
    pub fn min_quorum(self) -> u32
        // The result is the quorum.
        ensures value { result ≡ self.min_quorum }
        // The quorum is 1 to 20.
        ensures within { (1 ≤ result) × (result ≤ highest_quorum) }
    {
        self.min_quorum
    }

    /// Returns how many results are wanted: at least the quorum, at most 101.
    pub fn target_nresults(self) -> u32
        // The result is the target.
        ensures value { result ≡ self.target_nresults }
        // The target is at least the quorum and at most 101.
        ensures within { (self.min_quorum ≤ result) × (result ≤ highest_target) }
    {
        self.target_nresults
    }

    /// Returns how many errors the workunit may have without being given up: 0 to 100.
    pub fn max_error_results(self) -> u32
        // The result is the limit of errors.
        ensures value { result ≡ self.max_error_results }
        // The limit of errors is 0 to 100.
        ensures within { result ≤ most_instances }
    {
        self.max_error_results
    }

    /// Returns how many instances may be made: 1 to 100.
    pub fn max_total_results(self) -> u32
        // The result is the limit of instances.
        ensures value { result ≡ self.max_total_results }
        // The limit of instances is 1 to 100.
        ensures within { (1 ≤ result) × (result ≤ most_instances) }
    {
        self.max_total_results
    }

    /// Returns how many viable successes without a consensus the workunit may have without being given up: 0 to 100.
    pub fn max_success_results(self) -> u32
        // The result is the limit of successes.
        ensures value { result ≡ self.max_success_results }
        // The limit of successes is 0 to 100.
        ensures within { result ≤ most_instances }
    {
        self.max_success_results
    }

    /// Returns the seconds from the sending of an instance to its deadline: 1 to 31536000.
    pub fn delay_bound(self) -> u32
        // The result is the delay in seconds.
        ensures value { result ≡ self.delay_bound }
        // The delay is 1 to 31,536,000 seconds.
        ensures within { (1 ≤ result) × (result ≤ longest_delay) }
    {
        self.delay_bound
    }

    /// Returns the credit of a valid result: 0 to 1000000.
    pub fn credit(self) -> u32
        // The result is the credit.
        ensures value { result ≡ self.credit }
        // The credit is 0 to 1,000,000.
        ensures within { result ≤ most_credit }
    {
        self.credit
    }

    /// Returns the parameters with another target.
    pub fn with_target(self, target_nresults: u32) -> Self
        // The new target is at least the quorum and at most 101.
        requires { (self.min_quorum ≤ target_nresults) × (target_nresults ≤ highest_target) }
        // Only the target changes.
        ensures { result ≡ record self { target_nresults = target_nresults } }
    {
        Params {
            target_nresults,
            ..self
        }
    }
}

impl Default for Params {
    // The defaults are the parameters of a template that sets nothing.
    ghost is_default = { λ p. p ≡ default_parameters };

    fn default() -> Self {
        Params {
            min_quorum: 2,
            target_nresults: 2,
            max_error_results: 3,
            max_total_results: 10,
            max_success_results: 6,
            delay_bound: 604800,
            credit: 1,
        }
    }
}
