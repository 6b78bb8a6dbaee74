//! A host whose row has other sums than its grants.

ghost use Rattle.std.specs.Prelude.{◌≡◌, ◌<◌, ℕ, IfOk, IfSome, Some, length, slice_get, sum_by};
ghost use Rattle.std.specs.List.Sorted.{IsSorted};
ghost use Rattle.wu_loader.specs.Asked.{LooksAtTables};
ghost use Rattle.wu_loader.specs.Granting.{by_host, referred};
ghost use Rattle.wu_loader.specs.Totals.{HasOtherSums, IsFirstOfOtherSums, ShowsOtherSums};

use crate::finding::NoWorld;
use crate::hosts::{first_out_of_order, first_ungranted, grants_by_host, run_of, sort};
use crate::tables::read_rows;
use crate::whole::RowsOf;
use sqlite::{Alter, Connection};
use std::alloc::Global;
use wu_core::{Fault, Grant};
use wu_schema::ProjectTable;
use wu_schema::rows::HostSum;

/// A host whose row has other sums than its grants.
#[derive(Drop)]
pub struct OtherSums {
    /// The host, with the sums of its row.
    pub kept: HostSum,
    /// The credit of its grants.
    pub credit: u64,
    /// The number of its grants.
    pub grants: u64,
}

/// Returns the credit of the grants, or `None` if it does not fit.
fn credit_of(grants: &[&Grant]) -> Option<u64>
    ensures { IfSome result (λ credit. credit ≡ sum_by (λ grant. grant.now.credit) grants.now) }
{
    let mut credit: u64 = 0;
    for grant in grants {
        credit = credit.checked_add(grant.credit)?;
    }
    Some(credit)
}

/// Returns the host at this place with both sums, or `None` if they are the same.
fn sums_at(hosts: Vec<HostSum>, place: usize, grants: &[&Grant]) -> Option<OtherSums>
    requires sorted { IsSorted by_host grants.now }
    requires within { place < length hosts.items }
    ensures there { IfSome result (λ sums. slice_get hosts.items place ≡ Some sums.kept) }
    ensures other { IfSome result (HasOtherSums (referred grants.now)) }
{
    let mut hosts = hosts;
    let kept = hosts.swap_remove(place);
    let run = run_of(grants, &kept.name);
    let count = run.len() as u64;
    let credit = credit_of(run)?;
    if kept.total == credit && kept.grants == count {
        return None;
    }
    Some(OtherSums {
        kept,
        credit,
        grants: count,
    })
}

/// Returns the first host of these rows that does not have the sums of its grants, with both sums. Returns `None` if a
/// row is that of no value, the hosts' names do not rise, or no sums differ.
fn sums_from(
    alloc: Global,
    hosts: RowsOf<HostSum>,
    grants: RowsOf<Grant>,
) -> Result<Option<OtherSums>, NoWorld>
    ensures { IfOk result (λ found. IfSome found (λ sums. (place : ℕ)
        × IsFirstOfOtherSums grants hosts place sums)) }
{
    let grants = grants.into_values(ProjectTable::Grant)?;
    let mut hosts = hosts.into_values(ProjectTable::Host)?;
    sort(&mut hosts)?;
    let sorted = grants_by_host(alloc, &grants)?;
    let None = first_out_of_order(&hosts) else {
        return Ok(None);
    };
    match first_ungranted(&hosts, &sorted) {
        Some(place) => Ok(sums_at(hosts, place, &sorted)),
        None => Ok(None),
    }
}

/// Returns the first host of the tables that does not have the sums of its grants, with both sums. Returns `None` if
/// a row of a host or of a grant is that of no value, the hosts' names do not rise, or no sums differ. Changes nothing.
pub fn other_sums<S: Alter>(
    conn: &mut Connection<S>,
    alloc: Global,
) -> Result<Option<OtherSums>, Fault>
    // Only reads; over tables of any version in rowid order, the host is the first, by name, that
    // has not the sums of its grants, and these are both.
    ensures { (version : ℕ) → LooksAtTables version S.Store conn.old conn.new result
        (λ db trees found. IfSome found (ShowsOtherSums db.trees trees)) }
{
    let hosts = read_rows(conn, alloc, ProjectTable::Host)?;
    let grants = read_rows(conn, alloc, ProjectTable::Grant)?;
    match sums_from(alloc, hosts, grants) {
        Ok(found) => Ok(found),
        Err(NoWorld::Wrong(_)) => Ok(None),
        Err(NoWorld::Memory) => Err(Fault::Memory),
    }
}
