//! Whether the hosts are those of the grants.

ghost use Rattle.std.specs.Prelude.{◌≡◌, ◌↔◌, ◌<◌, ◌≤◌, All, IfErr, IfOk, IfSome, IsTrue, MatchOption, OnOk, filter, length, map, sum_by};
ghost use Rattle.std.specs.List.Sorted.{IsPermutation, IsSorted};
ghost use Rattle.std.specs.declared.cmp.Ordering.TheVariants.{Less};
ghost use Rattle.wu_core.specs.Hosts.{hosts_of, is_to};
ghost use Rattle.wu_schema.specs.Refines.{host_of};
ghost use Rattle.wu_loader.specs.Granting.{by_host, by_name, referred, AreHosts, HasGrantedSums, IsListed, IsUngranted, IsWrongHost, Rise};
ghost use Rattle.wu_loader.specs.Rows.{IsStoredGrant};
ghost use Rattle.wu_loader.specs.Whole.{IsIn, IsNotAbove, UnlessMemory};
ghost use Rattle.wu_loader.specs.Wrongs.{IsWrongHostRow};

use crate::finding::{NoWorld, WrongRow};
use crate::whole::RowsOf;
use std::alloc::{AllocError, Global};
use wu_core::{Grant, Name};
use wu_schema::ProjectTable;
use wu_schema::rows::HostSum;

/// Sorts the hosts by their names.
pub(crate) fn sort(hosts: &mut Vec<HostSum>) -> Result<(), AllocError>
    ensures same { IsPermutation hosts.old.items hosts.new.items }
    ensures sorted { OnOk result (IsSorted by_name hosts.new.items) }
{
    hosts.sort_by(|one, other| one.name.as_str().cmp(other.name.as_str()))
}

/// Returns whether the name of the one is below that of the other.
fn is_below(one: &HostSum, other: &HostSum) -> bool
    ensures { IsTrue result ↔ (by_name one.now other.now ≡ Less) }
{
    one.name.as_str().cmp(other.name.as_str()).is_lt()
}

/// Returns references to the grants, in their order.
fn grant_references<'a>(alloc: Global, grants: &'a [Grant]) -> Result<Vec<&'a Grant>, AllocError>
    ensures { IfOk result (λ all. referred all.items ≡ grants.now) }
{
    grants.iter().collect(alloc)
}

/// Returns the grants in order of their hosts' names.
pub(crate) fn grants_by_host<'a>(
    alloc: Global,
    grants: &'a [Grant],
) -> Result<Vec<&'a Grant>, AllocError>
    ensures same { IfOk result (λ sorted. IsPermutation grants.now (referred sorted.items)) }
    ensures sorted { IfOk result (λ sorted. IsSorted by_host sorted.items) }
{
    let mut sorted = grant_references(alloc, grants)?;
    sorted.sort_by(|one, other| one.host.as_str().cmp(other.host.as_str()))?;
    Ok(sorted)
}

/// Returns the grants to the host of this name. They are next to each other, since the grants are in order of their
/// hosts' names.
pub(crate) fn run_of<'a>(grants: &'a [&'a Grant], name: &Name) -> &'a [&'a Grant]
    requires { IsSorted by_host grants.now }
    ensures { referred result.now ≡ filter (is_to name.now) (referred grants.now) }
{
    let start = grants.partition_point(|grant| grant.host.as_str().cmp(name.as_str()).is_lt());
    let end = grants.partition_point(|grant| grant.host.as_str().cmp(name.as_str()).is_le());
    &grants[start..end]
}

/// Returns whether this is the credit of all the grants: one after another is taken from it.
fn is_credit(total: u64, grants: &[&Grant]) -> bool
    ensures { IsTrue result ↔ (total ≡ sum_by (λ grant. grant.now.credit) grants.now) }
{
    let mut left = total;
    for grant in grants {
        if grant.credit > left {
            return false;
        }
        left -= grant.credit;
    }
    left == 0
}

/// Returns whether the host has grants, and as many as these.
fn is_counted(host: &HostSum, grants: &[&Grant]) -> bool
    ensures { IsTrue result ↔ ((0 < host.now.grants) × (host.now.grants ≡ length grants.now)) }
{
    host.grants > 0 && host.grants == grants.len() as u64
}

/// Returns whether the host has grants, and its sums are theirs.
fn is_granted(host: &HostSum, grants: &[&Grant]) -> bool
    // It is true exactly where the host has grants, and its total and count are theirs.
    requires { IsSorted by_host grants.now }
    ensures { IsTrue result ↔ HasGrantedSums (referred grants.now) host.now }
{
    let run = run_of(grants, &host.name);
    is_counted(host, run) && is_credit(host.total, run)
}

/// Returns the first host whose name is not above that of the one before it, or `None` if there is none.
pub(crate) fn first_out_of_order(hosts: &[HostSum]) -> Option<usize>
    ensures order { MatchOption result (Rise hosts.now) (λ _. ¬ Rise hosts.now) }
    ensures within { IfSome result (λ place. place < length hosts.now) }
    ensures told { IfSome result (IsNotAbove by_name hosts.now) }
{
    for place in 1..hosts.len() {
        if !is_below(&hosts[place - 1], &hosts[place]) {
            return Some(place);
        }
    }
    None
}

/// Returns the first host that has not what it was granted, or `None` if there is none.
pub(crate) fn first_ungranted(hosts: &[HostSum], grants: &[&Grant]) -> Option<usize>
    requires { IsSorted by_host grants.now }
    ensures granted { MatchOption result (All (HasGrantedSums (referred grants.now)) hosts.now)
        (λ _. ¬ All (HasGrantedSums (referred grants.now)) hosts.now) }
    ensures within { IfSome result (λ place. place < length hosts.now) }
    ensures told { IfSome result (IsUngranted (referred grants.now) hosts.now) }
{
    for (place, host) in hosts.iter().enumerate() {
        if !is_granted(host, grants) {
            return Some(place);
        }
    }
    None
}

/// Returns whether one of the hosts, which are in order, has the name.
fn is_listed(hosts: &[HostSum], name: &Name) -> bool
    requires { Rise hosts.now }
    ensures { IsTrue result ↔ IsListed hosts.now name.now }
{
    hosts
        .binary_search_by(|host| host.name.as_str().cmp(name.as_str()))
        .is_ok()
}

/// Returns whether the host of each grant is among these, which are in order.
fn are_listed(hosts: &[HostSum], grants: &[&Grant]) -> bool
    requires { Rise hosts.now }
    ensures { IsTrue result ↔ All (λ grant. IsListed hosts.now grant.host) (referred grants.now) }
{
    for grant in grants {
        if !is_listed(hosts, &grant.host) {
            return false;
        }
    }
    true
}

/// Returns the first of these hosts that keeps them from being those of the grants, or the place after them if one is
/// missing. Returns `None` if they are.
fn first_wrong_host(hosts: &[HostSum], grants: &[&Grant]) -> Option<usize>
    requires { IsSorted by_host grants.now }
    // `None` means that these are the hosts of the grants, each once and in order, with their
    // totals and counts.
    ensures hosts { MatchOption result (AreHosts (referred grants.now) hosts.now)
        (λ _. ¬ AreHosts (referred grants.now) hosts.now) }
    // A place is at most that after the last host.
    ensures within { IfSome result (λ place. place ≤ length hosts.now) }
    // A place is that of the first host out of order; else of the first not as granted; else that
    // after the last one, where one is missing.
    ensures told { IfSome result (IsWrongHost (referred grants.now) hosts.now) }
{
    if let Some(place) = first_out_of_order(hosts) {
        return Some(place);
    }
    if let Some(place) = first_ungranted(hosts, grants) {
        return Some(place);
    }
    if are_listed(hosts, grants) {
        None
    } else {
        Some(hosts.len())
    }
}

/// Returns `Ok` if the rows are those of the hosts of these grants. If one is missing, the place after the last row is
/// reported.
pub(crate) fn know_hosts(
    alloc: Global,
    rows: RowsOf<HostSum>,
    grants: &[Grant],
) -> Result<(), NoWorld>
    // `Ok` means that the rows are those of the hosts of these grants with their totals and counts,
    // in some order.
    ensures hosts { OnOk result (IsPermutation (map (host_of grants.now)
        (hosts_of grants.now)) rows) }
    // A row that is reported means that, for grants with values in range, the rows are not those of
    // their hosts.
    ensures none { IfErr result (λ reason. UnlessMemory reason (λ _. All IsStoredGrant grants.now
        → ¬ IsPermutation (map (host_of grants.now) (hosts_of grants.now)) rows)) }
    // The reported row of `host` is the first that is that of no host; else the first out of order;
    // else the first not as granted; else it is missing after the last one.
    ensures told { IfErr result (λ reason. UnlessMemory reason (IsIn ProjectTable.Host
        (IsWrongHostRow grants.now rows))) }
{
    let mut hosts = rows.into_values(ProjectTable::Host)?;
    sort(&mut hosts)?;
    let sorted = grants_by_host(alloc, grants)?;
    match first_wrong_host(&hosts, &sorted) {
        Some(wrong) => {
            let place = wrong as u64 + 1;
            Err(NoWorld::Wrong(WrongRow {
                table: ProjectTable::Host,
                place,
            }))
        }
        None => Ok(()),
    }
}
