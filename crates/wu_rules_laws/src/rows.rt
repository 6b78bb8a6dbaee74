//! Laws of sends and reports: each function's contract is one, for every workunit and every row.

ghost use Rattle.wu_rules_laws.specs.Rows.{ReportsAsTold, SendsAsTold};

/// Proves which sends are applied, and what they change.
pub fn sends_as_told()
    // A send is applied exactly if the instance is UNSENT, the host has none of the workunit, and
    // an active workunit has the host's class. The instance is then in progress at the host from
    // that moment, due after `delay_bound` seconds, and the workunit has the host's class. Nothing
    // else changes.
    ensures { SendsAsTold }
{}

/// Proves which reports are applied, and what they change.
pub fn reports_as_told()
    // A report is applied exactly if the instance was sent to the host, not after the moment, and
    // is not over, or over with NO_REPLY. The instance is then over at that moment with the
    // reported outcome and output, no verdict, and its output not marked for deletion. Nothing else
    // changes.
    ensures { ReportsAsTold }
{}
