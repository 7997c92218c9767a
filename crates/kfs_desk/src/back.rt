//! What comes back where no desk was begun.
ghost use Rattle.std.specs.Prelude.{◌≡◌};

use crate::history::answers::BeginFault;
use kfs_image::Image;
use kfs_lease::Leases;
use kfs_mode::Client;
use std::alloc::Allocator;

/// The image and the clients that a desk wasn't begun with.
#[derive(Drop)]
pub struct BeginBack<A: Allocator> {
    /// As it was handed in.
    pub image: Image<A>,
    /// As they were handed in.
    pub clients: Vec<Client, A>,
    /// The reason.
    pub why: BeginFault,
}

/// What a desk wasn't resumed with.
#[derive(Drop)]
pub struct ResumeBack<A: Allocator> {
    /// As it was handed in.
    pub image: Image<A>,
    /// As they were handed in.
    pub clients: Vec<Client, A>,
    /// As they were handed in.
    pub leases: Leases<A>,
    /// The reason.
    pub why: BeginFault,
}

impl<A: Allocator> ResumeBack<A> {
    /// All of it, and the reason.
    pub(crate) fn of(
        image: Image<A>,
        clients: Vec<Client, A>,
        leases: Leases<A>,
        why: BeginFault,
    ) -> ResumeBack<A>
        ensures image { result.image ≡ image }
        ensures clients { result.clients ≡ clients }
        ensures leases { result.leases ≡ leases }
        ensures why { result.why ≡ why }
    {
        ResumeBack {
            image,
            clients,
            leases,
            why,
        }
    }
}
