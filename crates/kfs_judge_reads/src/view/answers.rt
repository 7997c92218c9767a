//! Making a view, and looking things up in it.
ghost use Rattle.std.specs.Prelude.{◌≡◌};
ghost use Rattle.std.specs.Option.{option_map};
ghost use Rattle.kfs_image_nodes.specs.Look.{IsAnswer};
ghost use Rattle.kfs_model.specs.Lease.{holds, row_of};
ghost use Rattle.kfs_model.specs.Table.{get};
ghost use Rattle.kfs_model.specs.Tree.{target};
ghost use Rattle.kfs_types.specs.Views.{header_of};
ghost use Rattle.kfs_mode.specs.Clients.{ClientsAreDistinct};
ghost use Rattle.kfs_model.specs.Sight.{answer};
ghost use Rattle.kfs_judge_reads.specs.Reads.{answer_of, cell_of};
ghost use Rattle.kfs_judge_reads.specs.View.{contents_of, leases_of, clients_of, client_sight_in};

use crate::kept_read::{KeptRead, Place};
use crate::reads::ReadAnswer;
use crate::view::View;
use kfs_image_nodes::{Answer, Cell, Header, NameAt, Near, Shape, look};
use kfs_lease::Leases;
use kfs_mode::{Client, find_client};
use std::alloc::Allocator;
use std::sync::Arc;

impl<A: Allocator + Copy> View<A> {
    /// The view of these. Condition: no two clients have the same number; where their numbers ascend, a
    /// client is found faster. Takes no memory.
    pub fn of(
        shape: Arc<Shape<A>, A>,
        leases: Arc<Leases<A>, A>,
        clients: Arc<Vec<Client, A>, A>,
    ) -> View<A>
        requires distinct { ClientsAreDistinct clients.value.items }
        ensures contents { contents_of result ≡ shape.value }
        ensures leases { leases_of result ≡ leases.value }
        ensures clients { clients_of result ≡ clients.value.items }
    {
        View {
            shape,
            leases,
            clients,
        }
    }

    /// The client with this number, or none. Takes no memory.
    pub fn client(&self, number: u32) -> Option<&Client>
        ensures { option_map (λ row. row.now) result ≡ row_of (clients_of self.now) number }
    {
        find_client(self.clients.as_slice(), number)
    }

    /// The header of a node, or none. Takes no memory.
    pub(crate) fn header(&self, number: u32) -> Option<Header>
        ensures { option_map header_of result ≡ get (contents_of self.now).heads number }
    {
        self.shape.header(number)
    }

    /// The answer at a cell. Takes no memory.
    pub fn look(&self, cell: &Cell) -> Answer
        ensures { IsAnswer (contents_of self.now) cell.now result }
    {
        look(&self.shape, cell)
    }

    /// The number that a name of a directory leads to, or none, for names that are looked up one after
    /// another. It is found faster where the last name was near. `near` becomes the place of this one.
    /// Takes no memory.
    pub(crate) fn target_near(&self, near: &mut Near, key: &NameAt<'_>) -> Option<u32>
        ensures { result ≡ target (contents_of self.now).names key.now.0 key.now.1 }
    {
        self.shape.target_near(near, key)
    }

    /// The view's answer to a read of the client with this number, for reads of names that are made one
    /// after another (`target_near`). Takes no memory.
    pub fn answer_near(&self, client: u32, read: &KeptRead<A>, near: &mut Near) -> ReadAnswer
        ensures { answer (client_sight_in self.now client) (cell_of read.now) ≡ answer_of result }
    {
        match read.place() {
            Place::Header(number) => ReadAnswer::Look(Answer::Header(self.header(*number))),
            Place::Name(dir, name) => {
                let key = NameAt::new(*dir, name.sought());
                ReadAnswer::Look(Answer::Name(self.target_near(near, &key)))
            }
            Place::Count(dir) => ReadAnswer::Look(Answer::Count(self.shape.count(*dir))),
            Place::Parent(number) => ReadAnswer::Look(Answer::Parent(self.shape.parent(*number))),
            Place::Lease(number) => ReadAnswer::Lease(self.holds(client, *number)),
        }
    }

    /// Where the last name of the view was changed: a place to begin with for `target_near`.
    pub(crate) fn near(&self) -> Near {
        self.shape.near()
    }

    /// Whether the client holds a live write lease on the node; false where there is no such client or
    /// node. Takes no memory.
    pub fn holds(&self, client: u32, number: u32) -> bool
        ensures { result ≡ holds (leases_of self.now) client number }
    {
        self.leases.holds(client, number)
    }
}
