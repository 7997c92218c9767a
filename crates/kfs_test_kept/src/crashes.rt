//! A crash at each moment of a run, torn in five ways, and the desk that is opened then.
ghost use Rattle.kfs_journal.specs.Memory.{memory_may_leave, memory_seen};
ghost use Rattle.kfs_kept.specs.Keeping.{IsKept};

use crate::keeping::{
    AMPLE, BAD, CREATE, Heap, Keeper, LEASE_FILE, LEASE_ROOT, LETTERS, MIGRATE, TICK,
};
use kfs_journal::{MemoryDisk, Tear};
use kfs_test_support::refusing::Refusing;
use std::process::Abort;
use std::thread::Threads;

/// The ways in which a crash tears.
const TEARS: [Tear; 5] = [Tear::Lost, Tear::Whole, Tear::Half, Tear::Ones, Tear::Zeros];

/// How many steps a checkpoint goes on before the group within it: its state isn't whole in the next file by then.
const FIRST_STEPS: usize = 3;

/// More steps than a checkpoint here has.
const MANY_STEPS: usize = 1_000;

/// How many calls of the disk were made by the end of a step, and the state as bytes that the desk shows then.
#[derive(Drop)]
struct Shown<'a> {
    moment: usize,
    state: Vec<u8, Heap<'a>>,
}

/// Adds what the desk shows.
fn show<'a>(keeper: &Keeper<'a>, shown: &mut Vec<Shown<'a>>) -> Option<()>
    requires { IsKept memory_seen memory_may_leave keeper.now.kept }
{
    let state = keeper.saved()?;
    let moment = keeper.moment();
    shown.push(Shown { moment, state }).ok()
}

/// Makes calls as one group, of which so many are made, and adds what the desk shows then.
fn call<'a>(
    keeper: &mut Keeper<'a>,
    shown: &mut Vec<Shown<'a>>,
    calls: &[&[u8]],
    made: usize,
) -> Option<()>
    requires { IsKept memory_seen memory_may_leave keeper.old.kept }
    ensures { IsKept memory_seen memory_may_leave keeper.new.kept }
{
    let found = keeper.call(calls);
    show(keeper, shown)?;
    (found == Ok((calls.len(), made))).then_some(())
}

/// Makes steps of a checkpoint under way, which ends by them or doesn't, and adds what the desk shows then.
fn steps<'a>(
    keeper: &mut Keeper<'a>,
    shown: &mut Vec<Shown<'a>>,
    count: usize,
    ends: bool,
) -> Option<()>
    requires { IsKept memory_seen memory_may_leave keeper.old.kept }
    ensures { IsKept memory_seen memory_may_leave keeper.new.kept }
{
    let was_under_way = keeper.is_under_way();
    let found = keeper.make_steps(count);
    show(keeper, shown)?;
    let is_under_way = keeper.is_under_way();
    (was_under_way && found == Some(ends) && is_under_way != ends).then_some(())
}

/// A checkpoint in steps, with a group of a tick between two of them.
fn renew<'a>(keeper: &mut Keeper<'a>, shown: &mut Vec<Shown<'a>>) -> Option<()>
    requires { IsKept memory_seen memory_may_leave keeper.old.kept }
    ensures { IsKept memory_seen memory_may_leave keeper.new.kept }
{
    let begun = keeper.begin_checkpoint();
    show(keeper, shown)?;
    begun.ok()?;
    steps(keeper, shown, FIRST_STEPS, false)?;
    call(keeper, shown, &[TICK], 1)?;
    steps(keeper, shown, MANY_STEPS, true)
}

/// Two groups, a checkpoint in steps, and a group.
fn run<'a>(keeper: &mut Keeper<'a>, shown: &mut Vec<Shown<'a>>) -> Option<()>
    requires { IsKept memory_seen memory_may_leave keeper.old.kept }
    ensures { IsKept memory_seen memory_may_leave keeper.new.kept }
{
    show(keeper, shown)?;
    call(keeper, shown, &[LEASE_ROOT, BAD, CREATE], 2)?;
    call(keeper, shown, &[CREATE, LEASE_FILE], 2)?;
    renew(keeper, shown)?;
    call(keeper, shown, &[LETTERS, MIGRATE], 2)
}

/// The state as bytes that the files are opened as after a crash. None where they aren't opened.
fn found_after<'a>(
    rt: &(impl Threads + Sync),
    heap: Heap<'a>,
    disk: &MemoryDisk,
    moment: usize,
    tear: Tear,
) -> Option<Vec<u8, Heap<'a>>> {
    match Keeper::after_crash(rt, heap, disk, moment, tear) {
        Ok(keeper) => keeper.saved(),
        Err(_) => None,
    }
}

fn is_state(shown: &[Shown<'_>], index: usize, found: &[u8]) -> bool {
    match shown.get(index) {
        Some(it) => it.state.as_slice() == found,
        None => false,
    }
}

/// Whether that is what the files may stand for by that moment, where at most one step more was begun than was ended.
fn is_due(shown: &[Shown<'_>], moment: usize, found: &[u8]) -> bool {
    let mut ended = 0usize;
    for it in shown {
        if it.moment <= moment {
            ended = ended.saturating_add(1);
        }
    }
    is_state(shown, ended, found) || is_state(shown, ended.wrapping_sub(1), found)
}

#[test]
fn each_moment_leaves_what_was_answered(rt: HostRuntime) {
    let heap = Refusing::new(rt.alloc(), AMPLE);
    let mut keeper = Keeper::begin(&rt, rt.alloc(), &heap).expect(&rt, "memory");
    let mut shown = Vec::new(rt.alloc());
    run(&mut keeper, &mut shown).expect(&rt, "the run");
    for moment in 0..=keeper.moment() {
        for tear in TEARS {
            let found = found_after(&rt, &heap, keeper.disk(), moment, tear).expect(&rt, "opened");
            assert!(&rt; is_due(&shown, moment, &found), "moment {moment}");
        }
    }
}
