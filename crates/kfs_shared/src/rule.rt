//! The table on which passes take turns, with its rule.

use crate::docketed::Docketed;
use crate::turns::Known;
use atomic_table::{Seat, Shared, TableRule};
use std::snapshot::Snapshot;

/// The rule of turns.
pub struct Turns;

impl<D: Docketed> TableRule<Option<D>, Known<D, D::Opening, D::Row>, Snapshot<D>> for Turns {
    ghost use Rattle.kfs_shared.specs.Turns.Turns.{KeepsTurns, newcomer};

    ghost holds = { λ key. KeepsTurns D.opening D.rows D.legal D.stands key.value };

    ghost first = { λ key. newcomer D.opening D.rows D.legal D.stands key.value };
}

/// The seat of a pass. It has no bytes.
pub type PassSeat<D> = Seat<Option<D>, Known<D, <D as Docketed>::Opening, <D as Docketed>::Row>>;

/// The table. Its key is the object as it was when the table was made.
pub type TurnTable<D> = Shared<
    Option<D>,
    Known<D, <D as Docketed>::Opening, <D as Docketed>::Row>,
    Snapshot<D>,
    Turns,
>;
