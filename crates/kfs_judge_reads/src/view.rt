//! What a judgement looks at: nodes and names, leases and clients, as they were when the view was
//! taken.
ghost use Rattle.kfs_mode.specs.Clients.{ClientsAreDistinct};

mod answers;
mod permissions;

use kfs_image_nodes::Shape;
use kfs_lease::Leases;
use kfs_mode::Client;
use std::alloc::Allocator;
use std::sync::Arc;

/// A view of a state: its nodes and names, its leases with their moment, and its clients. It shares
/// them, has no bytes of files, and doesn't change when the desk goes on.
#[derive(Drop)]
pub struct View<A: Allocator> {
    shape: Arc<Shape<A>, A>,
    leases: Arc<Leases<A>, A>,
    clients: Arc<Vec<Client, A>, A>,
    ghost distinct: { ClientsAreDistinct clients.value.items },
}
