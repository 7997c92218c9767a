//! The change of a landing: the image changes, and leases on nodes that go end. A state of the machine,
//! visible to contracts only.
ghost use Rattle.std.specs.Prelude.{◌≡◌, ◌++◌, IfOk, OnErr, OnOk};
ghost use Rattle.std.specs.List.{AllByRecursion};
ghost use Rattle.kfs_model.specs.Plan.{PiecesAscend};
ghost use Rattle.kfs_pieces.specs.Lefts.{IsFilled, PieceIsInRange};
ghost use Rattle.kfs_desk.specs.Fill.Bytes.{HasPayloads, pieces_of};
ghost use Rattle.kfs_desk.specs.Fill.FillOf.{CanLandWith, HasLandedWith};
ghost use Rattle.kfs_image_nodes.specs.Lent.{net_in};
ghost use Rattle.kfs_lease.specs.Removed.{without_nodes_in};
ghost use Rattle.kfs_desk.specs.Landing.{ended_by, removed_by, removed_with, CanLandBytes, IsLandedWith};
ghost use Rattle.kfs_desk.specs.Machine.{IsShown, state_at};

use crate::fill::{LogBytes, land_bytes};
use kfs_entry::NodeRow;
use kfs_image::Image;
use kfs_image_nodes::LentNet;
use kfs_lease::Leases;
use kfs_mode::Client;
use kfs_types::Change;
use std::alloc::{AllocError, Allocator};
use std::marker::Model;
use std::snapshot::Snapshot;
use std::sync::Arc;

/// The change that a log makes of the image, with its bytes.
#[derive(Drop)]
struct ImageChange<'a, 'b, 's, A: Allocator> {
    image: &'a mut Image<A>,
    bytes: &'b LogBytes<'b, 's, A>,
    net: &'b LentNet<'b, 's, A>,
}

impl<'a, 'b, 's, A: Allocator + Copy> Change for ImageChange<'a, 'b, 's, A> {
    ghost use Rattle.std.specs.Prelude.{◌≡◌, refl};
    ghost use Rattle.kfs_types.specs.Nested.{Becomes};
    ghost use Rattle.kfs_image_nodes.specs.Lent.{net_in};
    ghost use Rattle.kfs_desk.specs.Landing.{CanLandBytes, IsLandedWith};

    ghost can_make = { λ before. CanLandBytes before.image.now before.bytes.now (net_in before.net.now) };

    ghost made = { λ before after. IsLandedWith before.image.now before.bytes.now (net_in before.net.now) after.image.now × (after.image.ghost_name ≡ before.image.ghost_name) };

    ghost kept = { λ before after. Becomes before.image after.image before.image.now };

    ghost not_tried = { λ before. (refl, refl) };

    #[tactic(auto, unfolding(crate::specs::Landing::IsLandedWith))]
    fn make(&mut self) -> Result<(), AllocError> {
        let alloc = *self.net.nodes().allocator();
        land_bytes(alloc, self.image, self.bytes, self.net)
    }
}

/// Makes a net's change, with the bytes of its log. All memory is taken before the first change of
/// image or leases.
#[tactic(auto, unfolding(crate::specs::Landing::IsLandedWith))]
pub(crate) fn change_state<A: Allocator + Copy>(
    alloc: A,
    image: &mut Image<A>,
    leases: &mut Arc<Leases<A>, A>,
    bytes: &LogBytes<'_, '_, A>,
    net: &LentNet<'_, '_, A>,
) -> Result<(), AllocError>
    requires payloads { HasPayloads bytes.now }
    requires pieces { PiecesAscend (pieces_of bytes.now) }
    requires whole { AllByRecursion PieceIsInRange bytes.now.pieces.now }
    requires filled { AllByRecursion IsFilled bytes.now.pieces.now }
    requires fits { CanLandWith image.old bytes.now (net_in net.now) }
    ensures image { OnOk result (HasLandedWith image.old bytes.now (net_in net.now) image.new) }
    ensures leases { OnOk result (leases.new.value ≡ ended_by leases.old.value (net_in net.now).nodes.items) }
    ensures err { OnErr result ((image.new ≡ image.old) × (leases.new.value ≡ leases.old.value)) }
{
    let removed = removed_nodes(alloc, net.nodes().as_slice())?;
    change_both(image, leases, bytes, net, removed.as_slice())
}

/// Makes the change of the image, and ends the leases on these nodes.
fn change_both<A: Allocator + Copy>(
    image: &mut Image<A>,
    leases: &mut Arc<Leases<A>, A>,
    bytes: &LogBytes<'_, '_, A>,
    net: &LentNet<'_, '_, A>,
    removed: &[u32],
) -> Result<(), AllocError>
    requires { CanLandBytes image.old bytes.now (net_in net.now) }
    ensures image { OnOk result (IsLandedWith image.old bytes.now (net_in net.now) image.new) }
    ensures leases { OnOk result (leases.new.value ≡ without_nodes_in leases.old.value removed.now) }
    ensures err { OnErr result ((image.new ≡ image.old) × (leases.new.value ≡ leases.old.value)) }
{
    let mut change = ImageChange { image, bytes, net };
    end_leases(leases, removed, &mut change)?;
    Ok(())
}

/// The numbers of the nodes that the rows remove.
fn removed_nodes<A: Allocator + Copy>(
    alloc: A,
    nodes: &[NodeRow],
) -> Result<Vec<u32, A>, AllocError>
    ensures { IfOk result (λ removed. removed.items ≡ removed_by nodes.now) }
{
    let mut removed = Vec::new(alloc);
    for row in nodes {
        push_removed(&mut removed, row)?;
    }
    Ok(removed)
}

fn push_removed<A: Allocator>(removed: &mut Vec<u32, A>, row: &NodeRow) -> Result<(), AllocError>
    ensures { OnOk result (removed.new.items ≡ removed.old.items ++ removed_with row.entry.now.number row.entry.now.now) }
{
    if row.now.is_none() {
        removed.push(row.number)?;
    }
    Ok(())
}

/// Ends the leases on the nodes, together with another change. Where a view shares the leases, a copy
/// is made first, which shares their rows; where no node goes, there is none to make.
fn end_leases<A: Allocator + Copy, T: Change>(
    leases: &mut Arc<Leases<A>, A>,
    removed: &[u32],
    then: &mut T,
) -> Result<(), AllocError>
    requires then { T.can_make then.old }
    ensures ok { OnOk result (leases.new.value ≡ without_nodes_in leases.old.value removed.now) }
    ensures err { OnErr result (leases.new.value ≡ leases.old.value) }
    ensures made { OnOk result (T.made then.old then.new) }
    ensures kept { OnErr result (T.kept then.old then.new) }
{
    match removed {
        [] => then.make(),
        _ => {
            let leases = Arc::make_mut(leases)?;
            leases.remove_nodes(removed, then)
        }
    }
}

/// The state that an image shows, together with clients and leases. It takes no memory.
#[derive(Drop)]
pub struct ShownState<A: Allocator> {
    image: Snapshot<Image<A>>,
    clients: Snapshot<Arc<Vec<Client, A>, A>>,
    leases: Snapshot<Arc<Leases<A>, A>>,
}

impl<A: Allocator> Model for ShownState<A> {
    ghost use Rattle.kfs_model.specs.Judgement.{State};
    ghost use Rattle.kfs_desk.specs.Machine.{state_at};

    ghost Value = { State };

    ghost view = { λ s. state_at s.image.value s.clients.value.value.items s.leases.value.value };
}

impl<A: Allocator> ShownState<A> {
    /// The state of this image, these clients and these leases. Takes no memory.
    pub fn of(
        image: &Image<A>,
        clients: &Arc<Vec<Client, A>, A>,
        leases: &Arc<Leases<A>, A>,
    ) -> ShownState<A>
        ensures state { result ≡ state_at image.now clients.now.value.items leases.now.value }
        ensures shown { IsShown (state_at image.now clients.now.value.items leases.now.value) }
    {
        // Tells the prover that the image is lawful.
        let _shape = image.shape();
        ShownState {
            image: Snapshot::of(image),
            clients: Snapshot::of(clients),
            leases: Snapshot::of(leases),
        }
    }
}
