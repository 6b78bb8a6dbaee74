//! The files of the host, as lines and scripts name them. No clause can say that a file holds what is read of it.

ghost use Rattle.wu_process.specs.Asking.{may_hold};

use wu_arguments::ReadFile;
use wu_core::Fault;
use wu_host::read_file;

/// What reads the files of the host.
#[derive(Drop)]
pub struct HostFiles<'a> {
    rt: &'a HostRuntime,
}

impl<'a> HostFiles<'a> {
    /// Makes a reader of the host's files by this runtime.
    pub fn new(rt: &'a HostRuntime) -> Self {
        HostFiles { rt }
    }

    /// Returns the runtime.
    pub fn runtime(&self) -> &'a HostRuntime {
        self.rt
    }
}

impl ReadFile for HostFiles<'_> {
    ghost gives = { λ _ path most content. may_hold path most content };

    fn read(&self, path: &str, most: usize) -> Result<Option<Vec<u8>>, Fault> {
        read_file(self.rt, path, most)
    }
}
