//! The hosts of which most present instances ended with an error or without a reply.

ghost use Rattle.std.specs.Prelude.{◌≡◌, ◌+◌, ◌≤◌, IfOk, IsOkUnless, OnOk, length, take};
ghost use Rattle.std.specs.Cmp.Lexicographic.{slice_cmp};
ghost use Rattle.std.specs.List.{insert};
ghost use Rattle.std.specs.List.Sorted.{IsBinarySearchResult, IsSearchInRange};
ghost use Rattle.std.specs.Ordering.{nat_cmp};
ghost use Rattle.wu_core.specs.declared.fault.Fault.TheVariants.{Output};
ghost use Rattle.wu_core.specs.Storable.{AreStorable};
ghost use Rattle.wu_store.specs.Reads.{ReadsClassed};
ghost use Rattle.wu_views.specs.Failures.{by_failures, failures_of_host, with_failures, with_host_failures, with_more_failures, worst_first, FindsFailures, FindsWorstHosts, HostsRise};

use crate::lines::ResultLine;
use crate::listings::ResultListing;
use crate::tallies::{fault_of_count, sum};
use crate::walking::{Takes, walk};
use sqlite::{Alter, Connection};
use std::alloc::{AllocError, Global};
use std::cmp::Ordering;
use wu_core::{Fault, Name, Outcome};

/// How many hosts a status names.
pub const MOST_HOSTS: usize = 10;

/// A host, and how many of its present instances ended with an error, and how many without a reply.
#[derive(Drop)]
pub struct HostFailures {
    pub host: Name,
    pub errors: u64,
    pub no_replies: u64,
}

/// Returns how many instances failed in all.
fn total(errors: u64, no_replies: u64) -> u128
    ensures { result ≡ errors + no_replies }
{
    u128::from(errors) + u128::from(no_replies)
}

/// Returns how the hosts stand to each other in order of the number of failures, most first, and of name.
fn compare(one: &HostFailures, other: &HostFailures) -> Ordering
    ensures { result ≡ by_failures one.now other.now }
{
    let ones = total(one.errors, one.no_replies);
    let others = total(other.errors, other.no_replies);
    others
        .cmp(&ones)
        .then(one.host.as_str().cmp(other.host.as_str()))
}

/// Returns the place of a host among others, of which those with most failures are first.
fn place_among(hosts: &[HostFailures], host: &HostFailures) -> usize
    ensures within { result ≤ length hosts.now }
    ensures place { insert hosts.now result host.now ≡ with_host_failures hosts.now host.now }
{
    for place in 0..hosts.len() {
        if !compare(host, &hosts[place]).is_gt() {
            return place;
        }
    }
    hosts.len()
}

/// Returns the hosts with most failures, in order. Holds one more than these.
fn worst_of(alloc: Global, hosts: Vec<HostFailures>) -> Result<Vec<HostFailures>, AllocError>
    ensures { IfOk result (λ worst. worst.items ≡ take MOST_HOSTS (worst_first hosts.items)) }
{
    let mut worst = Vec::new(alloc);
    for host in hosts {
        let place = place_among(&worst, &host);
        worst.insert(place, host)?;
        worst.truncate(MOST_HOSTS);
    }
    Ok(worst)
}

/// Searches hosts in order of name. Returns the place of a name, or else the one where it belongs.
fn search(hosts: &[HostFailures], name: &Name) -> Result<usize, usize>
    ensures within { IsSearchInRange result (length hosts.now) }
    ensures found { IsBinarySearchResult (λ host. slice_cmp nat_cmp host.host name.now) hosts.now
        result }
{
    hosts.binary_search_by(|host| host.host.as_str().cmp(name.as_str()))
}

impl HostFailures {
    /// Adds failures. Returns `Output` if a number does not fit.
    fn add(&mut self, errors: u64, no_replies: u64) -> Result<(), Fault>
        ensures added { OnOk result (self.new ≡ with_more_failures errors no_replies self.old) }
        ensures fault { IsOkUnless result Output }
    {
        self.errors = sum(self.errors, errors)?;
        self.no_replies = sum(self.no_replies, no_replies)?;
        Ok(())
    }
}

/// The hosts of which instances failed, in order of name.
#[derive(Drop)]
struct Failures {
    hosts: Vec<HostFailures>,
}

impl Failures {
    /// Inserts a host at a place. Returns `Output` where there is no memory.
    fn insert(
        &mut self,
        place: usize,
        name: &Name,
        errors: u64,
        no_replies: u64,
    ) -> Result<(), Fault>
        requires { place ≤ length self.old.hosts.items }
        ensures inserted { OnOk result (self.new.hosts.items
            ≡ insert self.old.hosts.items place (failures_of_host name.now errors no_replies)) }
        ensures fault { IsOkUnless result Output }
    {
        let Ok(host) = name.copy() else {
            return Err(Fault::Output);
        };
        let failures = HostFailures {
            host,
            errors,
            no_replies,
        };
        match self.hosts.insert(place, failures) {
            Ok(()) => Ok(()),
            Err(_) => Err(Fault::Output),
        }
    }

    /// Adds failures of a host. Returns `Output` where there is no memory, or a number does not fit.
    fn add(&mut self, name: &Name, errors: u64, no_replies: u64) -> Result<(), Fault>
        ensures added { OnOk result (HostsRise self.old.hosts.items → self.new.hosts.items
            ≡ with_failures name.now errors no_replies self.old.hosts.items) }
        ensures fault { IsOkUnless result Output }
    {
        match search(&self.hosts, name) {
            Ok(place) => self.hosts[place].add(errors, no_replies),
            Err(place) => self.insert(place, name, errors, no_replies),
        }
    }
}

impl Takes<ResultLine> for Failures {
    ghost use Rattle.std.specs.Prelude.{◌≡◌, ⊤};
    ghost use Rattle.wu_views.specs.Failures.{with_outcome, HostsRise};

    ghost takes = { λ old new line. HostsRise old.hosts.items → new.hosts.items ≡ with_outcome line.host line.outcome old.hosts.items };

    ghost refuses = { λ old new line. ⊤ };

    fn take(&mut self, line: &ResultLine) -> Result<(), Fault> {
        let Some(host) = &line.host else {
            return Ok(());
        };
        match line.outcome {
            Outcome::ClientError | Outcome::ValidateError => self.add(host, 1, 0),
            Outcome::NoReply => self.add(host, 0, 1),
            _ => Ok(()),
        }
    }
}

/// Returns the hosts of which present instances ended with an error or without a reply, in order of name. Walks over all
/// instances, and holds one line of them.
fn count_failures<S: Alter>(
    conn: &mut Connection<S>,
    alloc: Global,
) -> Result<Vec<HostFailures>, Fault>
    ensures reads { ReadsClassed S.Store conn.old conn.new result FindsFailures AreStorable }
{
    let mut failures = Failures {
        hosts: Vec::new(alloc),
    };
    match walk::<S, ResultListing, Failures>(conn, alloc, &mut failures) {
        Ok(()) => {
            let Failures { hosts } = failures;
            Ok(hosts)
        }
        Err(fault) => Err(fault_of_count(fault)),
    }
}

/// Returns the hosts of which most present instances ended with an error or without a reply, at most ten, those with most
/// first. Walks over all instances, and holds one line of them and each host with such an instance.
///
/// Returns `NotAProject` if a row is no instance.
pub fn worst_hosts<S: Alter>(
    conn: &mut Connection<S>,
    alloc: Global,
) -> Result<Vec<HostFailures>, Fault>
    // The connection is open afterwards, except after `Memory` and `Broken`.
    // In each represented world with classes these are its hosts with most failures, in order. Over
    // such a world with values in range, with no limit on steps, `NotAProject` is not returned.
    ensures reads { ReadsClassed S.Store conn.old conn.new result FindsWorstHosts AreStorable }
{
    let hosts = count_failures(conn, alloc)?;
    let worst = worst_of(alloc, hosts)?;
    Ok(worst)
}
