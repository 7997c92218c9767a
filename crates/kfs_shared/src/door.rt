//! Who sleeps, and who wakes: the door before the tickets, and the words on which calls sleep.
//!
//! A call that is to sleep makes a word odd first, which marks it, and sleeps only while the word is as it
//! was then. A mark leaves an odd word as it is. Whoever wakes adds 1 to an odd word, and wakes then. So
//! where somebody sleeps, the word is odd, or whoever has added 1 is about to wake. All steps on words
//! stand in one order. Only the low half of a word is compared, and 2^32 changes come in no such moment.
//! No clause speaks of sleeping; tests do.
ghost use Rattle.std.specs.Prelude.{◌≡◌, ◌<◌, ◌≤◌};
ghost use Rattle.kfs_shared.specs.Turns.Turns.{SeatFits};

use crate::docketed::Docketed;
use crate::plays::Mark;
use crate::rule::{PassSeat, TurnTable};
use crate::turns::{BELLS, DOOR, NEXT, TURN};
use std::sync::Wait;
use std::time::Duration;

/// How many tickets may be out: that which is served, and the next two. A thread wakes more slowly than
/// most turns go by. So whoever has a ticket is to be awake, and all others wait at the door.
const MOST_OUT: u64 = 3;

/// How often a call with a ticket looks whether its turn has come before it sleeps. A look takes half a
/// nanosecond to one, so all take 10 to 20 microseconds. With a fifth of that, threads with short turns
/// fall asleep one behind another, since waking one takes longer than its turn. Between two looks stands no
/// `spin_loop`: it takes nothing on some processors and 17 nanoseconds or more on others, where a short
/// while would become one of 340 microseconds.
const LOOKS: u32 = 20_000;

/// How often a call looks at the door whether there is room before it sleeps there. That takes one to two
/// microseconds, which is as long as a short turn: else a call would sleep for a ticket that is free
/// before it is asleep. It is no longer, so of many calls at the door most sleep.
const LOOKS_AT_THE_DOOR: u32 = 2_000;

/// How long a call sleeps at the door, in microseconds. Then it draws a ticket in any case.
const AT_THE_DOOR: u64 = 200;

/// The word on which the call with this ticket sleeps.
pub fn bell_of(ticket: u64) -> usize
    ensures { (3 ≤ result) × (result < 12) }
{
    BELLS + (ticket % 8) as usize
}

/// Looks at the turn for a short while, until it is the ticket. It stops where the ticket isn't among the
/// next.
pub fn linger<D: Docketed>(table: &TurnTable<D>, ticket: u64)
    requires { table.now.table_id.words ≡ 12 }
{
    for _ in 0..LOOKS {
        let before = ticket.wrapping_sub(table.peek(TURN));
        if before == 0 || before >= MOST_OUT {
            return;
        }
    }
}

/// Marks a word on which the call is to sleep. What the low half of the word is then.
pub fn mark<D: Docketed>(table: &TurnTable<D>, seat: &mut PassSeat<D>, word: usize) -> u32
    requires table { SeatFits table.now.table_id seat.old.table_id }
    requires word { (3 ≤ word) × (word < 12) }
    ensures same { (seat.new.table_id ≡ seat.old.table_id) × (seat.new.id ≡ seat.old.id) }
    ensures me { seat.new.me ≡ seat.old.me }
{
    let found = table.fetch_or::<Mark>(seat, word, 1);
    ((found | 1) & 0xffff_ffff) as u32
}

/// Takes the mark of the word away, if it has one. Whether it had.
fn unmark<D: Docketed>(table: &TurnTable<D>, seat: &mut PassSeat<D>, word: usize) -> bool
    requires table { SeatFits table.now.table_id seat.old.table_id }
    requires word { (3 ≤ word) × (word < 12) }
    ensures same { (seat.new.table_id ≡ seat.old.table_id) × (seat.new.id ≡ seat.old.id) }
    ensures me { seat.new.me ≡ seat.old.me }
{
    let is_marked = table.peek(word) & 1 == 1;
    if is_marked {
        table.fetch_add::<Mark>(seat, word, 1);
    }
    is_marked
}

/// Whether one more ticket may be drawn. The turn is read first: so what was drawn is never less.
fn has_room<D: Docketed>(table: &TurnTable<D>) -> bool
    requires { table.now.table_id.words ≡ 12 }
{
    let turn = table.peek(TURN);
    table.peek(NEXT).wrapping_sub(turn) < MOST_OUT
}

/// Looks for a short while whether one more ticket may be drawn. Whether it may.
fn finds_room<D: Docketed>(table: &TurnTable<D>) -> bool
    requires { table.now.table_id.words ≡ 12 }
{
    for _ in 0..LOOKS_AT_THE_DOOR {
        if has_room(table) {
            return true;
        }
    }
    false
}

/// Waits for a while, with no ticket, if as many are out as may be. It looks first, and then sleeps. Nobody
/// sleeps here for longer, whether woken or not.
pub fn pass_door<D: Docketed, R: Wait>(rt: &R, table: &TurnTable<D>, seat: &mut PassSeat<D>)
    requires table { SeatFits table.now.table_id seat.old.table_id }
    ensures same { (seat.new.table_id ≡ seat.old.table_id) × (seat.new.id ≡ seat.old.id) }
    ensures me { seat.new.me ≡ seat.old.me }
{
    if finds_room(table) {
        return;
    }
    let marked = mark(table, seat, DOOR);
    if has_room(table) {
        return;
    }
    table.park_timeout(rt, DOOR, marked, Duration::from_micros(AT_THE_DOOR));
}

/// Wakes whose turn it is now, if it sleeps. Wakes one at the door, if no ticket is out.
pub fn wake<D: Docketed>(table: &TurnTable<D>, seat: &mut PassSeat<D>, turn: u64)
    requires table { SeatFits table.now.table_id seat.old.table_id }
    ensures same { (seat.new.table_id ≡ seat.old.table_id) × (seat.new.id ≡ seat.old.id) }
    ensures me { seat.new.me ≡ seat.old.me }
{
    if table.peek(NEXT) == turn {
        if unmark(table, seat, DOOR) {
            table.wake_one(DOOR);
        }
        return;
    }
    let bell = bell_of(turn);
    if unmark(table, seat, bell) {
        table.wake_all(bell);
    }
}
