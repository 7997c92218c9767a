//! A change of rows with what both indexes have of them, which may be made together with another
//! change.
ghost use Rattle.std.specs.Prelude.{◌≡◌, OnOk, OnErr, option_map};
ghost use Rattle.kfs_model.specs.Table.{changed};
ghost use Rattle.kfs_maps.specs.Chunks.Edits.{KeysAscend};
ghost use Rattle.kfs_maps.specs.Chunks.Tables.{table_after};
ghost use Rattle.kfs_lease.specs.Rows.Ending.{AreListed, rows_left};
ghost use Rattle.kfs_lease.specs.Rows.Rows.{by_node, by_end, by_client, lease_of, row_table, end_table, client_table, table_in, AreEndsOf, AreKeysOf, IndexesAreExact};

use crate::rows::rows::{Ending, Lease, LeaseRows, RowEnd};
use kfs_maps::{Chunks, Key, KeyEdit, key_edits};
use kfs_types::{Change, Nothing};
use std::alloc::{AllocError, Allocator};

/// An edit of a row, by its key.
type RowEdit = KeyEdit<(u32, u32), Lease>;

/// An edit of an end.
pub(crate) type EndEdit = KeyEdit<RowEnd, ()>;

/// An edit of the keys by client.
pub(crate) type ClientEdit = KeyEdit<(u32, u32), ()>;

/// Edits of an index, to be made together with another change.
#[derive(Drop)]
struct EditIndex<'a, 'b, K: Key, A: Allocator, T> {
    index: &'a mut Chunks<K, (), A>,
    edits: &'b [KeyEdit<K, ()>],
    then: T,
}

impl<'a, 'b, K: Key, A: Allocator + Clone, T: Change> Change for EditIndex<'a, 'b, K, A, T> {
    ghost use Rattle.std.specs.Prelude.{refl};
    ghost use Rattle.kfs_types.specs.Nested.{Becomes};
    ghost use Rattle.kfs_maps.specs.Chunks.Edits.{rewritten, KeysAscend};

    ghost can_make = { λ before. KeysAscend K.order.compare before.edits.now × T.can_make before.then };

    ghost made = { λ before after. Becomes before.index after.index (rewritten K.order before.index.now before.edits.now) × T.made before.then after.then };

    ghost kept = { λ before after. Becomes before.index after.index before.index.now × T.kept before.then after.then };

    ghost not_tried = { λ before. ((refl, refl), T.not_tried before.then) };

    fn make(&mut self) -> Result<(), AllocError> {
        self.index.change_then(self.edits, &mut self.then)
    }
}

/// A change that is lent.
#[derive(Drop)]
struct Lent<'a, T> {
    change: &'a mut T,
}

impl<'a, T: Change> Change for Lent<'a, T> {
    ghost use Rattle.std.specs.Prelude.{refl};
    ghost use Rattle.kfs_lease.specs.Rows.Ending.{HoldsOfLent};

    ghost can_make = { λ before. T.can_make before.change.now };

    ghost made = { λ before after. HoldsOfLent T.made before.change after.change };

    ghost kept = { λ before after. HoldsOfLent T.kept before.change after.change };

    ghost not_tried = { λ before. (T.not_tried before.change.now, refl) };

    fn make(&mut self) -> Result<(), AllocError> {
        self.change.make()
    }
}

impl<A: Allocator + Copy> LeaseRows<A> {
    /// Makes edits of rows, those of both indexes and another change, or none of these. All memory is
    /// taken before the first change. `Err` where memory runs out.
    fn change<T: Change>(
        &mut self,
        rows: &[RowEdit],
        ends: &[EndEdit],
        of_clients: &[ClientEdit],
        then: &mut T,
    ) -> Result<(), AllocError>
        requires rows { KeysAscend by_node.compare rows.now }
        requires ends { KeysAscend by_end.compare ends.now }
        requires of_clients { KeysAscend by_client.compare of_clients.now }
        requires exact { AreEndsOf (table_after (row_table self.old) rows.now) (table_after (end_table self.old) ends.now) }
        requires keys { AreKeysOf (table_after (row_table self.old) rows.now) (table_after (client_table self.old) of_clients.now) }
        requires indexed { IndexesAreExact self.old }
        requires then { T.can_make then.old }
        ensures indexed { IndexesAreExact self.new }
        ensures rows { OnOk result (row_table self.new ≡ table_after (row_table self.old) rows.now) }
        ensures err { OnErr result (self.new ≡ self.old) }
        ensures made { OnOk result (T.made then.old then.new) }
        ensures kept { OnErr result (T.kept then.old then.new) }
    {
        let mut indexes = EditIndex {
            index: &mut self.of_clients,
            edits: of_clients,
            then: EditIndex {
                index: &mut self.ends,
                edits: ends,
                then: Lent { change: then },
            },
        };
        self.leases.change_then(rows, &mut indexes)
    }

    /// Sets a row, or removes it, with edits that leave both indexes those of the rows.
    pub(crate) fn change_row(
        &mut self,
        key: (u32, u32),
        row: Option<Lease>,
        ends: &[EndEdit],
        of_clients: &[ClientEdit],
    ) -> Result<(), AllocError>
        requires ends { KeysAscend by_end.compare ends.now }
        requires of_clients { KeysAscend by_client.compare of_clients.now }
        requires exact { AreEndsOf (changed (row_table self.old) key row) (table_after (end_table self.old) ends.now) }
        requires keys { AreKeysOf (changed (row_table self.old) key row) (table_after (client_table self.old) of_clients.now) }
        requires indexed { IndexesAreExact self.old }
        ensures indexed { IndexesAreExact self.new }
        ensures table { OnOk result (table_in self.new ≡ changed (table_in self.old) (key.1, key.0) (option_map lease_of row)) }
        ensures err { OnErr result (self.new ≡ self.old) }
    {
        self.change(
            &[KeyEdit { key, value: row }],
            ends,
            of_clients,
            &mut Nothing,
        )
    }

    /// Removes the rows that are to go, together with another change.
    pub(crate) fn end_all<T: Change>(
        &mut self,
        ending: &Ending<A>,
        then: &mut T,
    ) -> Result<(), AllocError>
        requires listed { AreListed self.old ending.now }
        requires indexed { IndexesAreExact self.old }
        requires then { T.can_make then.old }
        ensures indexed { IndexesAreExact self.new }
        ensures rows { OnOk result (row_table self.new ≡ rows_left self.old ending.now) }
        ensures err { OnErr result (self.new ≡ self.old) }
        ensures made { OnOk result (T.made then.old then.new) }
        ensures kept { OnErr result (T.kept then.old then.new) }
    {
        let rows = key_edits(self.leases.allocator(), &ending.rows)?;
        let ends = key_edits(self.leases.allocator(), &ending.ends)?;
        let of_clients = key_edits(self.leases.allocator(), &ending.of_clients)?;
        self.change(
            rows.as_slice(),
            ends.as_slice(),
            of_clients.as_slice(),
            then,
        )
    }
}
