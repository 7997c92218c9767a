//! The kinds of step that a pass makes, each with what it tells.

use crate::docketed::Docketed;
use crate::turns::Known;
use atomic_table::{Join, Play, Split};

/// Takes a ticket.
pub struct Draw;

impl<D: Docketed> Play<Option<D>, Known<D, D::Opening, D::Row>> for Draw {
    ghost use Rattle.kfs_shared.specs.Turns.Told.{TellsTicket};

    ghost then = { TellsTicket };
}

/// Reads the turn.
pub struct Watch;

impl<D: Docketed> Play<Option<D>, Known<D, D::Opening, D::Row>> for Watch {
    ghost use Rattle.kfs_shared.specs.Turns.Told.{TellsTurn};

    ghost then = { TellsTurn D.opening D.rows D.legal D.stands };
}

/// Sees the count of rows, with the object out.
pub struct Count;

impl<D: Docketed> Play<Option<D>, Known<D, D::Opening, D::Row>> for Count {
    ghost use Rattle.kfs_shared.specs.Turns.Told.{TellsCount};

    ghost then = { TellsCount D.opening D.rows D.legal D.stands };
}

/// Adds a row.
pub struct Add;

impl<D: Docketed> Play<Option<D>, Known<D, D::Opening, D::Row>> for Add {
    ghost use Rattle.kfs_shared.specs.Turns.Told.{TellsRow};

    ghost then = { TellsRow D.opening D.rows D.legal D.stands };
}

/// Passes the turn on.
pub struct PassOn;

impl<D: Docketed> Play<Option<D>, Known<D, D::Opening, D::Row>> for PassOn {
    ghost use Rattle.kfs_shared.specs.Turns.Told.{TellsPassing};

    ghost then = { TellsPassing };
}

/// Marks a word on which calls sleep, or takes the mark away.
pub struct Mark;

impl<D: Docketed> Play<Option<D>, Known<D, D::Opening, D::Row>> for Mark {
    ghost use Rattle.kfs_shared.specs.Turns.Told.{TellsNothing};

    ghost then = { TellsNothing };
}

/// Sees the docket with no turn.
pub struct Glance;

impl<D: Docketed> Play<Option<D>, Known<D, D::Opening, D::Row>> for Glance {
    ghost use Rattle.kfs_shared.specs.Turns.Told.{TellsDocket};

    ghost then = { TellsDocket D.opening D.rows D.legal D.stands };
}

/// Splits a seat.
pub struct Copies;

impl<D, O, W> Split<Known<D, O, W>> for Copies {
    ghost use Rattle.kfs_shared.specs.Turns.Stages.{informed};

    ghost left = { λ known. known };

    ghost right = { informed };
}

/// Joins a second seat into the first.
pub struct Meets;

impl<D, O, W> Join<Known<D, O, W>> for Meets {
    ghost use Rattle.kfs_shared.specs.Turns.Stages.{having_met, used_up};

    ghost both = { having_met };

    ghost spent = { used_up };
}
