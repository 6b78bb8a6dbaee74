//! BOINC's states of a workunit and of its instances, with BOINC's numbers and words.

ghost use Rattle.std.specs.Prelude.{◌≡◌, Some};
ghost use Rattle.wu_core.specs.Words.{server_state_word, outcome_word, validate_state_word, assimilate_word, file_delete_word, status_word};
ghost use Rattle.wu_core.specs.Codes.{Decodes, server_state_code, outcome_code, validate_state_code, assimilate_code, file_delete_code};
ghost use Rattle.wu_core.specs.Statuses.{status_of, outcome_of};

use std::fmt;

/// Where an instance is on its way to a volunteer's machine and back.
#[derive(Clone, Copy, PartialEq, Eq)]
pub enum ServerState {
    Inactive = 1,
    Unsent = 2,
    InProgress = 4,
    Over = 5,
}

impl ServerState {
    /// Returns BOINC's number of the state, as a table stores it. The number 3 is not used.
    pub fn code(self) -> u32
        // The result is BOINC's number of the state.
        ensures { result ≡ server_state_code self }
    {
        self as u32
    }

    /// Returns the state of a stored number, or `None` if no state has it.
    pub fn from_code(code: u32) -> Option<Self>
        // The number of a state reads as that state, and any other number as `None`.
        ensures { Decodes server_state_code code result }
    {
        match code {
            1 => Some(ServerState::Inactive),
            2 => Some(ServerState::Unsent),
            4 => Some(ServerState::InProgress),
            5 => Some(ServerState::Over),
            _ => None,
        }
    }

    /// Returns the word that a view prints.
    pub fn word(self) -> &'static str
        // The result is BOINC's word of the state.
        ensures { result.now ≡ server_state_word self }
    {
        match self {
            ServerState::Inactive => "INACTIVE",
            ServerState::Unsent => "UNSENT",
            ServerState::InProgress => "IN_PROGRESS",
            ServerState::Over => "OVER",
        }
    }
}

impl fmt::Display for ServerState {
    // A state prints its written word.
    ghost output = { λ state. Some (server_state_word state) };

    fn fmt<W: fmt::Write>(&self, f: &mut fmt::Formatter<W>) -> fmt::Result {
        f.write_str(ServerState::word(*self))
    }
}

/// How an instance ended.
#[derive(Clone, Copy, PartialEq, Eq)]
pub enum Outcome {
    Init = 0,
    Success = 1,
    CouldntSend = 2,
    ClientError = 3,
    NoReply = 4,
    DidntNeed = 5,
    ValidateError = 6,
    ClientDetached = 7,
}

impl Outcome {
    /// Returns BOINC's number of the outcome, as a table stores it.
    pub fn code(self) -> u32
        // The result is BOINC's number of the outcome.
        ensures { result ≡ outcome_code self }
    {
        self as u32
    }

    /// Returns the outcome of a stored number, or `None` if no outcome has it.
    pub fn from_code(code: u32) -> Option<Self>
        // The number of an outcome reads as that outcome, and any other number as `None`.
        ensures { Decodes outcome_code code result }
    {
        match code {
            0 => Some(Outcome::Init),
            1 => Some(Outcome::Success),
            2 => Some(Outcome::CouldntSend),
            3 => Some(Outcome::ClientError),
            4 => Some(Outcome::NoReply),
            5 => Some(Outcome::DidntNeed),
            6 => Some(Outcome::ValidateError),
            7 => Some(Outcome::ClientDetached),
            _ => None,
        }
    }

    /// Returns the word that a view prints.
    pub fn word(self) -> &'static str
        // The result is BOINC's word of the outcome.
        ensures { result.now ≡ outcome_word self }
    {
        match self {
            Outcome::Init => "INIT",
            Outcome::Success => "SUCCESS",
            Outcome::CouldntSend => "COULDNT_SEND",
            Outcome::ClientError => "CLIENT_ERROR",
            Outcome::NoReply => "NO_REPLY",
            Outcome::DidntNeed => "DIDNT_NEED",
            Outcome::ValidateError => "VALIDATE_ERROR",
            Outcome::ClientDetached => "CLIENT_DETACHED",
        }
    }
}

impl fmt::Display for Outcome {
    // An outcome prints its written word.
    ghost output = { λ outcome. Some (outcome_word outcome) };

    fn fmt<W: fmt::Write>(&self, f: &mut fmt::Formatter<W>) -> fmt::Result {
        f.write_str(Outcome::word(*self))
    }
}

/// The validator's verdict on an instance.
#[derive(Clone, Copy, PartialEq, Eq)]
pub enum ValidateState {
    Init = 0,
    Valid = 1,
    Invalid = 2,
    NoCheck = 3,
    Inconclusive = 4,
    TooLate = 5,
}

impl ValidateState {
    /// Returns BOINC's number of the verdict, as a table stores it.
    pub fn code(self) -> u32
        // The result is BOINC's number of the verdict.
        ensures { result ≡ validate_state_code self }
    {
        self as u32
    }

    /// Returns the verdict of a stored number, or `None` if no verdict has it.
    pub fn from_code(code: u32) -> Option<Self>
        // The number of a verdict reads as that verdict, and any other number as `None`.
        ensures { Decodes validate_state_code code result }
    {
        match code {
            0 => Some(ValidateState::Init),
            1 => Some(ValidateState::Valid),
            2 => Some(ValidateState::Invalid),
            3 => Some(ValidateState::NoCheck),
            4 => Some(ValidateState::Inconclusive),
            5 => Some(ValidateState::TooLate),
            _ => None,
        }
    }

    /// Returns the word that a view prints.
    pub fn word(self) -> &'static str
        // The result is BOINC's word of the verdict.
        ensures { result.now ≡ validate_state_word self }
    {
        match self {
            ValidateState::Init => "INIT",
            ValidateState::Valid => "VALID",
            ValidateState::Invalid => "INVALID",
            ValidateState::NoCheck => "NO_CHECK",
            ValidateState::Inconclusive => "INCONCLUSIVE",
            ValidateState::TooLate => "TOO_LATE",
        }
    }
}

impl fmt::Display for ValidateState {
    // A verdict prints its written word.
    ghost output = { λ state. Some (validate_state_word state) };

    fn fmt<W: fmt::Write>(&self, f: &mut fmt::Formatter<W>) -> fmt::Result {
        f.write_str(ValidateState::word(*self))
    }
}

/// Whether a workunit waits for the assimilator.
#[derive(Clone, Copy, PartialEq, Eq)]
pub enum Assimilate {
    Init = 0,
    Ready = 1,
    Done = 2,
}

impl Assimilate {
    /// Returns BOINC's number of the state, as a table stores it.
    pub fn code(self) -> u32
        // The result is BOINC's number of the state.
        ensures { result ≡ assimilate_code self }
    {
        self as u32
    }

    /// Returns the state of a stored number, or `None` if no state has it.
    pub fn from_code(code: u32) -> Option<Self>
        // The number of a state reads as that state, and any other number as `None`.
        ensures { Decodes assimilate_code code result }
    {
        match code {
            0 => Some(Assimilate::Init),
            1 => Some(Assimilate::Ready),
            2 => Some(Assimilate::Done),
            _ => None,
        }
    }

    /// Returns the word that a view prints.
    pub fn word(self) -> &'static str
        // The result is the written word of the state.
        ensures { result.now ≡ assimilate_word self }
    {
        match self {
            Assimilate::Init => "INIT",
            Assimilate::Ready => "READY",
            Assimilate::Done => "DONE",
        }
    }
}

impl fmt::Display for Assimilate {
    // A state prints its written word.
    ghost output = { λ state. Some (assimilate_word state) };

    fn fmt<W: fmt::Write>(&self, f: &mut fmt::Formatter<W>) -> fmt::Result {
        f.write_str(Assimilate::word(*self))
    }
}

/// Whether an input or an output waits for the file deleter.
#[derive(Clone, Copy, PartialEq, Eq)]
pub enum FileDelete {
    Init = 0,
    Ready = 1,
    Done = 2,
    Error = 3,
}

impl FileDelete {
    /// Returns BOINC's number of the state, as a table stores it.
    pub fn code(self) -> u32
        // The result is BOINC's number of the state.
        ensures { result ≡ file_delete_code self }
    {
        self as u32
    }

    /// Returns the state of a stored number, or `None` if no state has it.
    pub fn from_code(code: u32) -> Option<Self>
        // The number of a state reads as that state, and any other number as `None`.
        ensures { Decodes file_delete_code code result }
    {
        match code {
            0 => Some(FileDelete::Init),
            1 => Some(FileDelete::Ready),
            2 => Some(FileDelete::Done),
            3 => Some(FileDelete::Error),
            _ => None,
        }
    }

    /// Returns the word that a view prints.
    pub fn word(self) -> &'static str
        // The result is the written word of the state.
        ensures { result.now ≡ file_delete_word self }
    {
        match self {
            FileDelete::Init => "INIT",
            FileDelete::Ready => "READY",
            FileDelete::Done => "DONE",
            FileDelete::Error => "ERROR",
        }
    }
}

impl fmt::Display for FileDelete {
    // A state prints its written word.
    ghost output = { λ state. Some (file_delete_word state) };

    fn fmt<W: fmt::Write>(&self, f: &mut fmt::Formatter<W>) -> fmt::Result {
        f.write_str(FileDelete::word(*self))
    }
}

/// How a host says that an instance ended.
#[derive(Clone, Copy, PartialEq, Eq)]
pub enum Status {
    Success,
    ClientError,
    Detached,
}

impl Status {
    /// Returns the word that a file of reports has.
    pub fn word(self) -> &'static str
        // The result is the written word of the status.
        ensures { result.now ≡ status_word self }
    {
        match self {
            Status::Success => "success",
            Status::ClientError => "client_error",
            Status::Detached => "detached",
        }
    }

    /// Returns the status of this word, or `None` if it is the word of no status.
    pub fn from_word(word: &[u8]) -> Option<Self>
        // The word of a status reads as that status, and any other text as `None`.
        ensures { result ≡ status_of word.now }
    {
        if word == b"success".as_slice() {
            Some(Status::Success)
        } else if word == b"client_error".as_slice() {
            Some(Status::ClientError)
        } else if word == b"detached".as_slice() {
            Some(Status::Detached)
        } else {
            None
        }
    }

    /// Returns the outcome of an instance that is reported so.
    pub fn outcome(self) -> Outcome
        // A success, a client error and a detached client have the outcomes of these names.
        ensures { result ≡ outcome_of self }
    {
        match self {
            Status::Success => Outcome::Success,
            Status::ClientError => Outcome::ClientError,
            Status::Detached => Outcome::ClientDetached,
        }
    }
}

impl fmt::Display for Status {
    // A status prints its written word.
    ghost output = { λ status. Some (status_word status) };

    fn fmt<W: fmt::Write>(&self, f: &mut fmt::Formatter<W>) -> fmt::Result {
        f.write_str(Status::word(*self))
    }
}
