//! The steps of a turn: a call enters, has the object in hand, and gives it back.
ghost use Rattle.std.specs.Prelude.{◌≡◌, ℕ, ◌+◌, ◌^◌, ◌<◌, [], ◌∷◌, ◌++◌, length, Some, None, IfSome, IfNone, true, false};
ghost use Rattle.kfs_shared.specs.declared.turns.known.Stage.TheVariants.{Idle, Waiting, Served};
ghost use Rattle.kfs_shared.specs.Turns.Lists.{StartsWith};
ghost use Rattle.kfs_shared.specs.Turns.Stages.{IsServed, HasCounted, at_stage, at_end, having_counted, having_added, rows_out};
ghost use Rattle.kfs_shared.specs.Turns.Told.{IsOut};
ghost use Rattle.kfs_shared.specs.Turns.Turns.{SeatFits};

use crate::docketed::Docketed;
use crate::door::{bell_of, linger, mark, pass_door, wake};
use crate::plays::{Add, Count, Draw, PassOn, Watch};
use crate::rule::{PassSeat, TurnTable};
use crate::turns::{LENGTH, NEXT, TURN};
use std::sync::Wait;

/// Takes a ticket; none where there is none left. The first try is at the ticket that the word has now,
/// each other one at the ticket that the last one found.
fn draw<D: Docketed, R: Wait>(rt: &R, table: &TurnTable<D>, seat: &mut PassSeat<D>) -> Option<u64>
    requires table { SeatFits table.now.table_id seat.old.table_id }
    requires idle { (seat.old.me.0.stage ≡ Idle) × (seat.old.me.1 ≡ []) }
    ensures same { (seat.new.table_id ≡ seat.old.table_id) × (seat.new.id ≡ seat.old.id) }
    ensures some { IfSome result (λ t. seat.new.me ≡ (at_stage seat.old.me.0 (Waiting t), [])) }
    ensures none { IfNone result (seat.new.me ≡ (at_end seat.old.me.0, [])) }
{
    let mut ticket = table.peek(NEXT).min(u64::MAX - 1);
    for _ in rt.forever() {
        let found = table.compare_exchange::<Draw>(seat, NEXT, ticket, ticket + 1);
        if found == ticket {
            return Some(ticket);
        }
        if found == u64::MAX {
            return None;
        }
        ticket = found;
    }
    unreachable!()
}

/// Waits until the ticket is served. It looks for a short while, if it is among the next. Then it sleeps
/// on the word of its ticket, which whoever passes the turn to it wakes. The slot is the seat's then.
fn await_turn<D: Docketed, R: Wait>(
    rt: &R,
    table: &TurnTable<D>,
    seat: &mut PassSeat<D>,
    ticket: u64,
)
    requires table { SeatFits table.now.table_id seat.old.table_id }
    requires waits { (seat.old.me.0.stage ≡ Waiting ticket) × (seat.old.me.1 ≡ []) }
    ensures same { (seat.new.table_id ≡ seat.old.table_id) × (seat.new.id ≡ seat.old.id) }
    ensures out { (d : D) × IsOut D.opening D.rows D.stands seat.old.me.0 ticket d seat.new.me }
{
    let bell = bell_of(ticket);
    for _ in rt.forever() {
        linger(table, ticket);
        let turn = table.load::<Watch>(seat, TURN);
        if turn == ticket {
            return;
        }
        let marked = mark(table, seat, bell);
        // The turn is read behind the mark. Where it isn't this ticket yet, it is passed to it later, and
        // whoever does that looks at the word behind it (`wake`). There it finds the mark, or another call
        // has taken it away and is waking. Either way the word has changed by then: this call doesn't
        // sleep, or is woken.
        let again = table.load::<Watch>(seat, TURN);
        if again == ticket {
            return;
        }
        table.park(rt, bell, marked);
    }
    unreachable!()
}

/// Takes the object out of the slot, and sees how many rows it has.
fn take_out<D: Docketed>(table: &TurnTable<D>, seat: &mut PassSeat<D>) -> D
    requires table { SeatFits table.now.table_id seat.old.table_id }
    requires served { IsServed seat.old.me.0.stage }
    requires out { (d : D) × (seat.old.me.1 ≡ (0, Some d) ∷ []) × (rows_out D.rows seat.old.me.0.stage ≡ D.rows d) }
    ensures same { (seat.new.table_id ≡ seat.old.table_id) × (seat.new.id ≡ seat.old.id) }
    ensures slot { seat.old.me.1 ≡ (0, Some result) ∷ [] }
    ensures out { seat.new.me ≡ (having_counted seat.old.me.0 (D.rows result), (0, None) ∷ []) }
    ensures legal { seat.old.me.0.opening ≡ Some (D.opening result) → D.legal (D.opening result) (D.rows result) }
{
    let Some(object) = table.exchange(seat, 0, None) else {
        unreachable!()
    };
    table.load::<Count>(seat, LENGTH);
    object
}

/// Waits until the ticket is served, and takes the object out.
fn take<D: Docketed, R: Wait>(
    rt: &R,
    table: &TurnTable<D>,
    seat: &mut PassSeat<D>,
    ticket: u64,
) -> D
    requires table { SeatFits table.now.table_id seat.old.table_id }
    requires waits { (seat.old.me.0.stage ≡ Waiting ticket) × (seat.old.me.1 ≡ []) }
    requires live { (o : _) × (seat.old.me.0.opening ≡ Some o) }
    ensures same { (seat.new.table_id ≡ seat.old.table_id) × (seat.new.id ≡ seat.old.id) }
    ensures out { seat.new.me ≡ (having_counted (at_stage seat.old.me.0 (Served ticket result false)) (D.rows result), (0, None) ∷ []) }
    ensures begins { StartsWith (D.rows result) seat.old.me.0.seen }
    ensures stands { D.stands result }
    ensures opened { seat.old.me.0.opening ≡ Some (D.opening result) }
    ensures legal { D.legal (D.opening result) (D.rows result) }
{
    await_turn(rt, table, seat, ticket);
    take_out(table, seat)
}

/// The first half of a call: passes the door, takes a ticket, waits until it is served, and takes the
/// object out. None where there is no ticket left; nothing has changed then.
///
/// Give the object back in every case (`give_back`), so return nothing early in between.
pub fn enter<D: Docketed, R: Wait>(
    rt: &R,
    table: &TurnTable<D>,
    seat: &mut PassSeat<D>,
) -> Option<D>
    requires table { SeatFits table.now.table_id seat.old.table_id }
    requires idle { (seat.old.me.0.stage ≡ Idle) × (seat.old.me.1 ≡ []) }
    requires live { (o : _) × (seat.old.me.0.opening ≡ Some o) }
    ensures same { (seat.new.table_id ≡ seat.old.table_id) × (seat.new.id ≡ seat.old.id) }
    ensures out { IfSome result (λ d. (t : ℕ) × (seat.new.me ≡ (having_counted (at_stage seat.old.me.0 (Served t d false)) (D.rows d), (0, None) ∷ []))) }
    ensures begins { IfSome result (λ d. StartsWith (D.rows d) seat.old.me.0.seen) }
    ensures stands { IfSome result (λ d. D.stands d) }
    ensures opened { IfSome result (λ d. seat.old.me.0.opening ≡ Some (D.opening d)) }
    ensures legal { IfSome result (λ d. D.legal (D.opening d) (D.rows d)) }
    ensures none { IfNone result (seat.new.me ≡ (at_end seat.old.me.0, [])) }
{
    pass_door(rt, table, seat);
    let ticket = draw(rt, table, seat)?;
    Some(take(rt, table, seat, ticket))
}

/// Tells all who share it of the last row of the object, which is still out. The length that the word
/// had is `count`.
fn add<D: Docketed>(table: &TurnTable<D>, seat: &mut PassSeat<D>, object: D, count: u64) -> D
    requires table { SeatFits table.now.table_id seat.old.table_id }
    requires turn { HasCounted seat.old.me.0.stage }
    requires count { (count ≡ length seat.old.me.0.seen) × (count + 1 < 2 ^ 64) }
    requires row { (row : _) × (D.rows object ≡ seat.old.me.0.seen ++ row ∷ []) }
    requires opened { (seat.old.me.0.opening ≡ Some (D.opening object)) × D.legal (D.opening object) (D.rows object) }
    requires stands { D.stands object }
    ensures same { (seat.new.table_id ≡ seat.old.table_id) × (seat.new.id ≡ seat.old.id) }
    ensures added { (result ≡ object) × (seat.new.me ≡ (having_added seat.old.me.0 (D.rows object) object, seat.old.me.1)) }
{
    let full = Some(object);
    table.compare_exchange_with::<Add>(seat, LENGTH, count, count + 1, &full);
    full.unwrap()
}

/// The second half of a call: puts the object back, passes the turn on, and wakes who sleeps and is to go
/// on. Answers how many rows there are.
pub fn give_back<D: Docketed>(table: &TurnTable<D>, seat: &mut PassSeat<D>, object: D) -> u64
    requires table { SeatFits table.now.table_id seat.old.table_id }
    requires turn { HasCounted seat.old.me.0.stage }
    requires out { seat.old.me.1 ≡ (0, None) ∷ [] }
    requires object { (D.rows object ≡ seat.old.me.0.seen) × (seat.old.me.0.opening ≡ Some (D.opening object)) }
    ensures same { (seat.new.table_id ≡ seat.old.table_id) × (seat.new.id ≡ seat.old.id) }
    ensures idle { seat.new.me ≡ (at_stage seat.old.me.0 Idle, []) }
    ensures count { result ≡ length (D.rows object) }
{
    let rows = object.row_count();
    match table.exchange(seat, 0, Some(object)) {
        None => {}
        Some(_) => unreachable!(),
    }
    let turn = table.fetch_add::<PassOn>(seat, TURN, 1);
    wake(table, seat, turn.wrapping_add(1));
    u64::from(rows)
}

/// Tells all who share it that the object, which is still out, has one row more. The row is the pass's
/// own then.
pub fn add_last<D: Docketed>(table: &TurnTable<D>, seat: &mut PassSeat<D>, object: D) -> D
    requires table { SeatFits table.now.table_id seat.old.table_id }
    requires turn { HasCounted seat.old.me.0.stage }
    requires row { (row : _) × (D.rows object ≡ seat.old.me.0.seen ++ row ∷ []) }
    requires opened { seat.old.me.0.opening ≡ Some (D.opening object) }
    ensures same { (seat.new.table_id ≡ seat.old.table_id) × (seat.new.id ≡ seat.old.id) }
    ensures added { (result ≡ object) × (seat.new.me ≡ (having_added seat.old.me.0 (D.rows object) object, seat.old.me.1)) }
    ensures legal { D.legal (D.opening object) (D.rows object) × D.stands object }
{
    let rows = u64::from(object.row_count());
    add(table, seat, object, rows - 1)
}
