//! What files keep, as a desk again.
ghost use Rattle.std.specs.Prelude.{◌≡◌, Ok, Some, OnOk, IfErr, IfOk};
ghost use Rattle.kfs_model.specs.Judgement.{State};
ghost use Rattle.kfs_journal.specs.Disk.{LeavesOnly, Only};
ghost use Rattle.kfs_journal.specs.Format.{meaning};
ghost use Rattle.kfs_journal.specs.Journal.{IsSettled, groups_of, opened_pair};
ghost use Rattle.kfs_kept.specs.Calls.Leads.{GroupLeads, GroupsLead};
ghost use Rattle.kfs_call_desk.specs.Restore.Restored.{RestoreAnswer};
ghost use Rattle.kfs_kept.specs.Faults.{IsOfState, IsOutside, IsWhy};
ghost use Rattle.kfs_kept.specs.Standing.{MeanTheSame, StandFor};

use crate::calls::{AgainFault, make_again};
use crate::fault::OpenFault;
use crate::restored::restore;
use kfs_call_desk::RestoreFault;
use kfs_desk::Desk;
use kfs_journal::{Disk, Journal, OpenFault as JournalFault, Opened};
use std::alloc::Allocator;
use std::thread::Threads;

/// A desk that was made from files, and their journal.
#[derive(Drop)]
pub struct Found<A: Allocator> {
    pub desk: Desk<A>,
    pub journal: Journal,
}

/// A desk of the state that the files keep, on which the calls of their groups are made again.
pub fn find<A: Allocator + Copy, D: Disk>(
    rt: &(impl Threads + Sync),
    alloc: A,
    disk: &mut D,
    first: &[u8],
    second: &[u8],
    limit: u32,
) -> Result<Found<A>, OpenFault>
    requires bytes { D.seen disk.old ≡ (first.now, second.now) }
    requires durable { Only (D.seen disk.old) (D.may_leave disk.old) }
    ensures settled { IfOk result (λ found. IsSettled (D.seen disk.new) (D.may_leave disk.new) found.journal) }
    ensures stand { IfOk result (λ found. StandFor (D.seen disk.new) found.desk.state) }
    ensures only { (s : State) → StandFor (D.seen disk.old) s → IfOk result (λ found. found.desk.state ≡ s) }
    ensures due { (s : State) → StandFor (D.seen disk.old) s → IfErr result IsOutside }
    ensures same { OnOk result (MeanTheSame (D.seen disk.old) (D.seen disk.new)) }
    ensures any_moment { LeavesOnly D.moment D.left_since disk.old disk.new (MeanTheSame (D.seen disk.old)) }
    ensures why { IfErr result (IsWhy (D.seen disk.old) (D.seen disk.new) (D.has_failed disk.new)) }
{
    let opened = read_journal(alloc, disk, first, second)?;
    let mut desk = desk_of(rt, alloc, &opened.state, limit)?;
    make_groups(alloc, &mut desk, &opened.groups)?;
    Ok(Found {
        desk,
        journal: opened.journal,
    })
}

/// The journal of the files, with the state and the groups that they keep.
fn read_journal<A: Allocator + Copy, D: Disk>(
    alloc: A,
    disk: &mut D,
    first: &[u8],
    second: &[u8],
) -> Result<Opened<A>, OpenFault>
    requires bytes { D.seen disk.old ≡ (first.now, second.now) }
    requires durable { Only (D.seen disk.old) (D.may_leave disk.old) }
    ensures settled { IfOk result (λ opened. IsSettled (D.seen disk.new) (D.may_leave disk.new) opened.journal) }
    ensures found { IfOk result (λ opened. meaning (D.seen disk.old) ≡ Some (opened_pair opened)) }
    ensures due { (s : State) → StandFor (D.seen disk.old) s → IfErr result IsOutside }
    ensures same { OnOk result (MeanTheSame (D.seen disk.old) (D.seen disk.new)) }
    ensures any_moment { LeavesOnly D.moment D.left_since disk.old disk.new (MeanTheSame (D.seen disk.old)) }
    ensures why { IfErr result (IsWhy (D.seen disk.old) (D.seen disk.new) (D.has_failed disk.new)) }
{
    match Journal::open(alloc, disk, first, second) {
        Ok(Some(opened)) => Ok(opened),
        Ok(None) => Err(OpenFault::Empty),
        Err(JournalFault::NotAJournal) => Err(OpenFault::NotAJournal),
        Err(JournalFault::OutOfMemory) => Err(OpenFault::OutOfMemory),
        Err(JournalFault::Failed) => Err(OpenFault::Failed),
    }
}

/// A desk of the state that the bytes come to.
fn desk_of<A: Allocator + Copy>(
    rt: &(impl Threads + Sync),
    alloc: A,
    state: &[u8],
    limit: u32,
) -> Result<Desk<A>, OpenFault>
    ensures restored { IfOk result (λ desk. RestoreAnswer state.now (Ok desk.state)) }
    ensures only { (s : State) → RestoreAnswer state.now (Ok s) → IfOk result (λ desk. desk.state ≡ s) }
    ensures due { (s : State) → RestoreAnswer state.now (Ok s) → IfErr result IsOutside }
    ensures why { IfErr result IsOfState }
{
    match restore(rt, alloc, state, limit) {
        Ok(desk) => Ok(desk),
        Err(fault) => match fault {
            RestoreFault::OutOfMemory => Err(OpenFault::OutOfMemory),
            why => Err(OpenFault::BadState(why)),
        },
    }
}

/// Makes the calls of the groups again, one group after another.
fn make_groups<A: Allocator + Copy, B: Allocator + Copy>(
    alloc: B,
    desk: &mut Desk<A>,
    groups: &[Vec<u8, B>],
) -> Result<(), OpenFault>
    ensures lead { OnOk result (GroupsLead desk.old.state (groups_of groups.now) desk.new.state) }
    ensures only { (t : State) → GroupsLead desk.old.state (groups_of groups.now) t → OnOk result (desk.new.state ≡ t) }
    ensures due { (t : State) → GroupsLead desk.old.state (groups_of groups.now) t → IfErr result IsOutside }
    ensures why { IfErr result IsOfState }
{
    for (index, group) in groups.iter().enumerate() {
        make_group(alloc, desk, index, group)?;
    }
    Ok(())
}

/// Makes the calls of the group with this index again.
fn make_group<A: Allocator + Copy, B: Allocator + Copy>(
    alloc: B,
    desk: &mut Desk<A>,
    index: usize,
    group: &[u8],
) -> Result<(), OpenFault>
    ensures leads { OnOk result (GroupLeads desk.old.state group.now desk.new.state) }
    ensures only { (t : State) → GroupLeads desk.old.state group.now t → OnOk result (desk.new.state ≡ t) }
    ensures due { (t : State) → GroupLeads desk.old.state group.now t → IfErr result IsOutside }
    ensures why { IfErr result IsOfState }
{
    match make_again(alloc, desk, group) {
        Ok(()) => Ok(()),
        Err(AgainFault::BadGroup) => Err(OpenFault::BadGroup(index)),
        Err(AgainFault::Differs) => Err(OpenFault::Differs(index)),
        Err(AgainFault::DocketFull) => Err(OpenFault::DocketFull),
        Err(AgainFault::OutOfMemory) => Err(OpenFault::OutOfMemory),
    }
}
