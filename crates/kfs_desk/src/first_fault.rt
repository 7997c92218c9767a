//! Why a desk can't be begun with a list of clients. Each client is looked at once.
ghost use Rattle.std.specs.Prelude.{◌≡◌, ◌↔◌, IfOk, IsTrue, None};
ghost use Rattle.std.specs.List.{AllByRecursion};
ghost use Rattle.kfs_model.specs.CleanStep.{IsClient};
ghost use Rattle.kfs_mode.specs.Clients.{ClientsAreDistinct};
ghost use Rattle.kfs_desk.specs.Opening.{begin_fault};
ghost use Rattle.kfs_desk.specs.Grants.{AreUngranted, MarksGranted};

use crate::history::answers::BeginFault;
use kfs_image::Places;
use kfs_mode::Client;
use kfs_types::GREATEST_NUMBER;
use std::alloc::{AllocError, Allocator};
use std::collections::BTreeSet;

/// The fault of the first client that can't follow the earlier ones, if there is one. Instead of
/// looking at these again, it keeps their numbers in a set, and the numbers that nobody is granted as
/// free places. `Err` where memory runs out.
pub(crate) fn first_fault<A: Allocator + Copy>(
    alloc: A,
    clients: &[Client],
) -> Result<Option<BeginFault>, AllocError>
    ensures first { IfOk result (λ fault. fault ≡ begin_fault clients.now) }
    ensures distinct { IfOk result (λ fault. fault ≡ None → ClientsAreDistinct clients.now) }
    ensures in_range { IfOk result (λ fault. fault ≡ None → AllByRecursion IsClient clients.now) }
{
    let mut numbers = BTreeSet::new(alloc);
    // A set of numbers with a bit for each: std has none, and the places of a tier are kept in such a one.
    let mut ungranted = Places::new(alloc, GREATEST_NUMBER + 1)?;
    for (index, client) in clients.iter().enumerate() {
        if !numbers.insert(client.number())? {
            return Ok(Some(BeginFault::ClientTwice(index)));
        }
        let (first, last) = client.grant();
        if !are_ungranted(&ungranted, first, last) {
            return Ok(Some(BeginFault::GrantOverlap(index)));
        }
        mark_granted(&mut ungranted, first, last);
    }
    Ok(None)
}

/// Whether no number from `first` to `last` is granted yet.
fn are_ungranted<A: Allocator>(ungranted: &Places<A>, first: u32, last: u32) -> bool
    ensures { IsTrue result ↔ AreUngranted ungranted.now first last }
{
    for number in first..=last {
        if !ungranted.is_free(number) {
            return false;
        }
    }
    true
}

/// Marks the numbers from `first` to `last` as granted.
fn mark_granted<A: Allocator>(ungranted: &mut Places<A>, first: u32, last: u32)
    requires { AreUngranted ungranted.old first last }
    ensures { MarksGranted ungranted.old first last ungranted.new }
{
    for number in first..=last {
        ungranted.take(number);
    }
}
