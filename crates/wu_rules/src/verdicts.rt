//! Verdicts on rows of sends and reports: a row is applied to its instance, or skipped for a reason.

ghost use Rattle.std.specs.Prelude.{◌≡◌, option_map};
ghost use Rattle.wu_core.specs.Codes.{Decodes};
ghost use Rattle.wu_rules.specs.Verdicts.{report_verdict_code, report_verdict_word, send_verdict_code, send_verdict_word};

/// The verdict on a row of sends: the first reason that holds, from `Unknown` on, or `Applied`.
#[derive(Clone, Copy, PartialEq, Eq)]
pub enum SendVerdict {
    Applied = 0,
    /// No such instance is present.
    Unknown = 1,
    /// The instance is not UNSENT.
    NotUnsent = 2,
    /// The host has an instance of this workunit already.
    SameHost = 3,
    /// The workunit has an active instance, and its class is not the host's.
    Class = 4,
}

impl SendVerdict {
    /// Returns the number of the verdict in this project, as a table stores it: 0 to 4.
    pub fn code(self) -> u8
        // The result is the number of the verdict.
        ensures { result ≡ send_verdict_code self }
    {
        self as u8
    }

    /// Returns the verdict of a stored number, or `None` if no verdict has it.
    pub fn from_code(code: u8) -> Option<Self>
        // The number of a verdict reads as that verdict, and any other number as `None`.
        ensures { Decodes send_verdict_code code result }
    {
        match code {
            0 => Some(SendVerdict::Applied),
            1 => Some(SendVerdict::Unknown),
            2 => Some(SendVerdict::NotUnsent),
            3 => Some(SendVerdict::SameHost),
            4 => Some(SendVerdict::Class),
            _ => None,
        }
    }

    /// Returns the word that an answer prints for a row that was skipped; `None` for a row that was applied.
    pub fn word(self) -> Option<&'static str>
        // A verdict that skips a row has its written word, and `Applied` has none.
        ensures { option_map (λ word. word.now) result ≡ send_verdict_word self }
    {
        match self {
            SendVerdict::Applied => None,
            SendVerdict::Unknown => Some("unknown"),
            SendVerdict::NotUnsent => Some("not_unsent"),
            SendVerdict::SameHost => Some("same_host"),
            SendVerdict::Class => Some("class"),
        }
    }
}

/// The verdict on a row of reports: the first reason that holds, from `Unknown` on, or `Applied`.
#[derive(Clone, Copy, PartialEq, Eq)]
pub enum ReportVerdict {
    Applied = 0,
    /// No such instance is present.
    Unknown = 1,
    /// The instance was never sent.
    NotSent = 2,
    /// The instance was sent to another host.
    WrongHost = 3,
    /// The instance was sent after the moment of the report.
    BeforeSent = 4,
    /// The instance is over already, with another outcome than NO_REPLY.
    Over = 5,
}

impl ReportVerdict {
    /// Returns the number of the verdict in this project, as a table stores it: 0 to 5.
    pub fn code(self) -> u8
        // The result is the number of the verdict.
        ensures { result ≡ report_verdict_code self }
    {
        self as u8
    }

    /// Returns the verdict of a stored number, or `None` if no verdict has it.
    pub fn from_code(code: u8) -> Option<Self>
        // The number of a verdict reads as that verdict, and any other number as `None`.
        ensures { Decodes report_verdict_code code result }
    {
        match code {
            0 => Some(ReportVerdict::Applied),
            1 => Some(ReportVerdict::Unknown),
            2 => Some(ReportVerdict::NotSent),
            3 => Some(ReportVerdict::WrongHost),
            4 => Some(ReportVerdict::BeforeSent),
            5 => Some(ReportVerdict::Over),
            _ => None,
        }
    }

    /// Returns the word that an answer prints for a row that was skipped; `None` for a row that was applied.
    pub fn word(self) -> Option<&'static str>
        // A verdict that skips a row has its written word, and `Applied` has none.
        ensures { option_map (λ word. word.now) result ≡ report_verdict_word self }
    {
        match self {
            ReportVerdict::Applied => None,
            ReportVerdict::Unknown => Some("unknown"),
            ReportVerdict::NotSent => Some("not_sent"),
            ReportVerdict::WrongHost => Some("wrong_host"),
            ReportVerdict::BeforeSent => Some("before_sent"),
            ReportVerdict::Over => Some("over"),
        }
    }
}
