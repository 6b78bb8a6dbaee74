//! Workunits, their instances, grants of credit and archived rows.

ghost use Rattle.std.specs.Prelude.{◌≡◌, ◌↔◌, ◌+◌, ◌≤◌, [], ◌++◌, length, replicate, vec_len, IsTrue, OnOk, OnErr};
ghost use Rattle.std.specs.Iterator.Adapters.{IterYieldsInOrder};
ghost use Rattle.std.specs.Slice.Iter.{iter_rest};
ghost use Rattle.wu_core.specs.Limits.{most_instances};
ghost use Rattle.wu_core.specs.Storable.{HasItsInstances};
ghost use Rattle.wu_core.specs.Workunit.{fresh};

use crate::bytes::Bytes;
use crate::mask::ErrorMask;
use crate::moment::{Deadline, Moment};
use crate::name::Name;
use crate::params::Params;
use crate::states::{Assimilate, FileDelete, Outcome, ServerState, ValidateState};
use std::alloc::{AllocError, Global};
use std::marker::Model;
use std::slice::Iter;

/// One copy of a workunit's job, for one host. Its place in the workunit's list is its number `n`, from 0.
#[derive(Drop)]
pub struct Instance {
    pub server_state: ServerState,
    pub outcome: Outcome,
    pub validate_state: ValidateState,
    /// Of the output.
    pub file_delete: FileDelete,
    /// The host that it was sent to.
    pub host: Option<Name>,
    pub sent_at: Option<Moment>,
    pub deadline: Option<Deadline>,
    /// When its result was reported.
    pub received_at: Option<Moment>,
    /// At most 65,536 bytes.
    pub output: Bytes,
}

impl Instance {
    ghost use Rattle.wu_core.specs.Workunit.{fresh};

    /// Returns a new instance: UNSENT, with no host, no moments and no output. Takes no memory.
    pub fn unsent(alloc: Global) -> Self
        // The instance is UNSENT, each other state is INIT, and it has no host, moments or output.
        ensures { result ≡ fresh }
    {
        Instance {
            server_state: ServerState::Unsent,
            outcome: Outcome::Init,
            validate_state: ValidateState::Init,
            file_delete: FileDelete::Init,
            host: None,
            sent_at: None,
            deadline: None,
            received_at: None,
            output: Bytes::new(alloc),
        }
    }
}

/// Appends `count` new instances. If out of memory, the list stays as it was.
fn append_unsent(alloc: Global, items: &mut Vec<Instance>, count: usize) -> Result<(), AllocError>
    // On success the new instances come after the others.
    ensures ok { OnOk result (items.new.items ≡ items.old.items ++ replicate count fresh) }
    // If out of memory, the list stays as it was.
    ensures err { OnErr result (items.new.items ≡ items.old.items) }
{
    let before = items.len();
    for _made in 0..count {
        if items.push(Instance::unsent(alloc)).is_err() {
            items.truncate(before);
            return Err(AllocError);
        }
    }
    Ok(())
}

/// The instances of a workunit, at most 100, in order of their numbers.
pub struct Instances {
    items: Vec<Instance>,
}

// It is written out, so that a caller does not prove again how each part is dropped.
impl Drop for Instances {
    fn drop(self) {
        let Instances { items: _items } = self;
    }
}

impl Model for Instances {
    ghost use Rattle.std.specs.Prelude.{List, length, ◌≤◌};
    ghost use Rattle.wu_core.specs.declared.workunit.Instance.{Instance};
    ghost use Rattle.wu_core.specs.Limits.{most_instances};

    ghost Value = { List Instance };

    ghost view = { λ instances. instances.items.items };

    ghost invariant = { λ instances. length instances.items.items ≤ most_instances };
}

impl Instances {
    ghost use Rattle.std.specs.Borrow.{sem};
    ghost use Rattle.wu_core.specs.Workunit.{fresh, LendsAll};

    /// Returns no instances; takes no memory.
    pub fn new(alloc: Global) -> Self
        // The result has no instances.
        ensures { result ≡ [] }
    {
        Instances {
            items: Vec::new(alloc),
        }
    }

    /// Returns these instances, numbered from 0; takes no memory.
    pub fn from_vec(items: Vec<Instance>) -> Self
        // There are at most 100 instances.
        requires { vec_len items ≤ most_instances }
        // The result has the vector's instances.
        ensures { result ≡ items.items }
    {
        Instances { items }
    }

    /// Returns the instances as a vector; takes no memory.
    pub fn into_vec(self) -> Vec<Instance>
        // The vector has the same instances.
        ensures items { result.items ≡ self }
        // There are at most 100 instances.
        ensures within { length self ≤ most_instances }
    {
        let Instances { items } = self;
        items
    }

    /// Returns the number of instances: at most 100.
    pub fn len(&self) -> usize
        // The result is the number of instances.
        ensures len { result ≡ length self.now }
        // There are at most 100 instances.
        ensures within { result ≤ most_instances }
    {
        self.items.len()
    }

    /// Returns whether there are no instances.
    pub fn is_empty(&self) -> bool
        // The result is true exactly if there are no instances.
        ensures { IsTrue result ↔ (self.now ≡ []) }
    {
        self.items.is_empty()
    }

    /// Returns an iterator over the instances in order of their numbers.
    pub fn iter(&self) -> Iter<'_, Instance>
        // The iterator has all instances before it.
        ensures rest { iter_rest result ≡ self.now }
        // There are at most 100 instances.
        ensures within { length (iter_rest result) ≤ most_instances }
        // The iterator yields each instance once, in order.
        ensures runs { IterYieldsInOrder Instance }
    {
        self.items.as_slice().iter()
    }

    /// Returns the instances in order of their numbers: at most 100.
    pub fn as_slice(&self) -> &[Instance]
        // The slice has the same instances.
        ensures items { result.now ≡ self.now }
        // There are at most 100 instances.
        ensures within { length self.now ≤ most_instances }
    {
        self.items.as_slice()
    }

    /// Appends `count` new instances. If out of memory, the list stays as it was.
    pub fn add_unsent(&mut self, alloc: Global, count: usize) -> Result<(), AllocError>
        // There are at most 100 instances with the new ones.
        requires { length self.old + count ≤ most_instances }
        // On success the new instances come after the others.
        ensures ok { OnOk result (self.new ≡ self.old ++ replicate count fresh) }
        // If out of memory, the list stays as it was.
        ensures err { OnErr result (self.new ≡ self.old) }
    {
        append_unsent(alloc, &mut self.items, count)
    }

    /// Returns the instances for a change in place.
    pub fn as_mut_slice(&mut self) -> &mut [Instance]
        // What is written to the slice is written to the instances.
        ensures* writes_back { sem 𝓛 (LendsAll self.entry result) }
        // The slice has the same instances.
        ensures value { result.now ≡ self.old }
        // There are at most 100 instances.
        ensures within { length self.old ≤ most_instances }
    {
        self.items.as_mut_slice()
    }
}

/// A job: its parameters, its input, its states and its instances.
#[derive(Drop)]
pub struct Workunit {
    /// From 1, never used twice.
    pub number: u64,
    pub name: Name,
    pub params: Params,
    /// At most 4096 bytes; empty once it was deleted.
    pub input: Bytes,
    pub error_mask: ErrorMask,
    /// The number of the canonical instance.
    pub canonical: Option<u32>,
    pub assimilate: Assimilate,
    /// Of the input.
    pub file_delete: FileDelete,
    /// When it was assimilated.
    pub done_at: Option<Moment>,
    /// 0 to 65535: the class of the host that an instance was last sent to. A transition sets it to 0 if no instance
    /// is in progress or a viable success.
    pub class: u32,
    pub instances: Instances,
}

impl Workunit {
    /// Returns whether there are no more instances than the workunit may have, and a canonical one is among them.
    pub fn has_its_instances(&self) -> bool
        // The answer is true exactly where the workunit has its instances.
        ensures { IsTrue result ↔ HasItsInstances self.now }
    {
        let is_canonical_there = match self.canonical {
            Some(n) => (n as usize) < self.instances.len(),
            None => true,
        };
        self.instances.len() <= self.params.max_total_results() as usize && is_canonical_there
    }
}

/// A host and its class. The results of hosts of one class can be compared.
#[derive(Drop)]
pub struct HostClass {
    pub host: Name,
    /// 1 to 65535. A host that no file named has class 0.
    pub class: u32,
}

/// Credit for one valid result.
#[derive(Drop)]
pub struct Grant {
    pub workunit: u64,
    pub n: u32,
    pub host: Name,
    pub credit: u64,
}

/// What the assimilator keeps of a workunit permanently.
#[derive(Drop)]
pub struct Archived {
    pub number: u64,
    pub name: Name,
    pub error_mask: ErrorMask,
    pub canonical: Option<u32>,
    /// The canonical output, or no bytes without a canonical result.
    pub output: Bytes,
    pub done_at: Moment,
}
