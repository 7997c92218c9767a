//! A desk is an object with a docket, so threads may share it.
ghost use Rattle.std.specs.Prelude.{◌≡◌, length};

use crate::docketed::Docketed;
use kfs_desk::{Desk, OneRow};
use std::alloc::Allocator;
use std::marker::Model;
use std::snapshot::Snapshot;

/// A row of a desk's docket. No value of it is made: contracts alone see rows.
pub struct DocketRow {
    row: OneRow,
}

impl Model for DocketRow {
    ghost use Rattle.kfs_model.specs.Machine.{Row};

    ghost Value = { Row };

    ghost view = { λ r. r.row.row };
}

/// How a desk was begun. No value of it is made.
pub struct Begun<A: Allocator> {
    desk: Snapshot<Desk<A>>,
}

impl<A: Allocator> Model for Begun<A> {
    ghost use Rattle.kfs_desk.specs.Beginning.{Beginning, beginning_of};

    ghost Value = { Beginning };

    ghost view = { λ b. beginning_of b.desk.value };
}

impl<A: Allocator + Copy> Docketed for Desk<A> {
    ghost use Rattle.kfs_desk.specs.History.Legal.{IsLegalDocket};
    ghost use Rattle.kfs_desk.specs.Beginning.{Beginning, IsDocketFrom, beginning_of};

    type Opening = Begun<A>;

    type Row = DocketRow;

    ghost opening = { λ desk. beginning_of desk };

    ghost rows = { λ desk. desk.docket };

    ghost legal = { IsDocketFrom };

    ghost stands = { λ desk. IsLegalDocket desk.opening desk.docket desk.state };

    fn row_count(&self) -> u32 {
        self.docket().len()
    }
}
