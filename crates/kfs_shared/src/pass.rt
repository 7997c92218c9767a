//! A shared object, the passes of those who share it, and their turns.
ghost use Rattle.std.specs.Prelude.{◌≡◌, [], ◌∷◌, length, None, Some, true};
ghost use Rattle.kfs_shared.specs.Turns.Stages.{ticket};
ghost use Rattle.kfs_shared.specs.declared.turns.known.Stage.TheVariants.{Idle, Served};

use crate::docketed::Docketed;
use crate::rule::{PassSeat, Turns};
use crate::turns::Known;
use atomic_table::Table;
use std::alloc::Allocator;
use std::snapshot::Snapshot;

/// An object that threads share. They call it by a `&` to this, each with a pass of its own, and their
/// calls take turns. Of a desk, it is `Shared<Desk<A>, A>`.
#[derive(Drop)]
pub struct Shared<D: Docketed, A: Allocator> {
    pub(crate) table: Table<Option<D>, Known<D, D::Opening, D::Row>, Snapshot<D>, Turns, A>,
    pub(crate) alloc: A,
    ghost sized: { (table.shared.table_id.words ≡ 12) × (table.shared.table_id.slots ≡ 1) },
}

/// The right of one caller to call a shared object. At run time it has one number, of the rows that it
/// has seen. Contracts see the rows themselves, and the positions of those that its own calls added.
#[derive(Drop)]
pub struct Pass<D: Docketed> {
    pub(crate) seat: PassSeat<D>,
    pub(crate) rows: u64,
    ghost idle: { (seat.me.0.stage ≡ Idle) × (seat.me.1 ≡ []) },
    ghost counted: { length seat.me.0.seen ≡ rows },
}

/// The turn of a pass. The object is out of the table, and all other passes wait until it is put back.
/// So a turn isn't `Drop`: whoever has one must hand it on, and `Shared::end_turn` takes it at last.
pub struct Turn<D: Docketed> {
    pub(crate) seat: PassSeat<D>,
    pub(crate) object: D,
    ghost served: { seat.me.0.stage ≡ Served (ticket seat.me.0.stage) object true },
    ghost out: { seat.me.1 ≡ (0, None) ∷ [] },
    ghost begun: { seat.me.0.opening ≡ Some (D.opening object) },
    ghost whole: { D.rows object ≡ seat.me.0.seen },
}
