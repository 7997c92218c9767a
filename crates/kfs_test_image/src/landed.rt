//! Images with the nodes that a log of client 7 makes.
ghost use Rattle.std.specs.Prelude.{◌≡◌, IfSome, OnErr};
ghost use Rattle.kfs_mode.specs.Clients.{ClientsAreDistinct};
ghost use Rattle.kfs_model.specs.Device.ShownTree.{IsLawful};
ghost use Rattle.kfs_image.specs.Image as images;
ghost use Rattle.kfs_image_nodes.specs.Lent.{IsSameNet};
ghost use Rattle.kfs_image.specs.Net.{after_net};
ghost use Rattle.kfs_judge.specs.Views.{contents_of};

use kfs_image::{Fill, Image, Net, TierSizes, net_apply};
use kfs_judge::View;
use kfs_lease::{LeaseKind, Leases};
use kfs_mode::Client;
use kfs_plan::{Outcome, Submission, judge};
use kfs_types::{KeptName, KeptRow, NameRow};
use std::alloc::{AllocError, Allocator};
use std::sync::Arc;

/// What client 7 hands in at an image with the root alone: a log, and its right plan.
#[derive(Clone, Copy)]
pub struct Made<'a> {
    pub log: &'a [u8],
    pub plan: &'a [u8],
}

/// Client 7, with the numbers 2 to 99.
fn clients<A: Allocator>(alloc: A) -> Option<Vec<Client, A>>
    ensures { IfSome result (λ clients. ClientsAreDistinct clients.items) }
{
    let client = Client::new(7, 1000, 1000, &[], false, 2, 99).ok()?;
    vec![in alloc; client].ok()
}

/// A view of the image, in which client 7 holds a write lease on the root.
fn view_of<A: Allocator + Copy>(
    alloc: A,
    image: &Image<A>,
    clients: Vec<Client, A>,
) -> Option<View<A>>
    requires distinct { ClientsAreDistinct clients.items }
    ensures contents { IfSome result (λ view. contents_of view ≡ images.contents_of image.now) }
{
    let mut leases = Leases::new(alloc);
    leases
        .grant(
            image.shape(),
            clients.as_slice(),
            7,
            b"/",
            LeaseKind::Write,
            100,
        )
        .ok()?;
    let shape = image.shape().clone().ok()?;
    let leases = Arc::new(alloc, leases).ok()?;
    let clients = Arc::new(alloc, clients).ok()?;
    Some(View::of(shape, leases, clients))
}

/// The net of a submission that is judged right. Since the view shows the image's tree, the tree is
/// sound after the net.
fn right_net<A: Allocator + Copy>(
    alloc: A,
    image: &Image<A>,
    view: &View<A>,
    submission: Submission<A>,
) -> Option<Net<A>>
    requires contents { contents_of view.now ≡ images.contents_of image.now }
    ensures lawful { IfSome result (λ net. IsLawful (after_net net image.now)) }
{
    // Tells the prover that the image is lawful.
    let _shape = image.shape();
    let Ok(judged) = judge(alloc, view, submission) else {
        return None;
    };
    let (_submission, outcome) = judged.into_parts();
    match outcome {
        Outcome::Yes { net, .. } => owned(alloc, net),
        Outcome::No(_) => None,
    }
}

/// The same net, with names of its own.
fn owned<A: Allocator>(alloc: A, net: Net<A, KeptName<A>>) -> Option<Net<A>>
    ensures { IfSome result (IsSameNet net) }
{
    let Net { names, nodes } = net;
    let names = owned_rows(alloc, names.as_slice())?;
    Some(Net { names, nodes })
}

/// The same rows, with names of their own.
fn owned_rows<A: Allocator>(alloc: A, rows: &[KeptRow<A>]) -> Option<Vec<NameRow, A>>
    ensures { IfSome result (λ owned. owned.items ≡ rows.now) }
{
    let mut owned = Vec::with_capacity(alloc, rows.len()).ok()?;
    for row in rows {
        owned.push(row.borrowed().owned()).ok()?;
    }
    Some(owned)
}

/// The net of what client 7 hands in at the image.
pub fn net_of<A: Allocator + Copy>(alloc: A, image: &Image<A>, made: Made<'_>) -> Option<Net<A>>
    ensures { IfSome result (λ net. IsLawful (after_net net image.now)) }
{
    let submission = Submission {
        client: 7,
        log: Vec::from_slice(alloc, made.log).ok()?,
        plan: Vec::from_slice(alloc, made.plan).ok()?,
    };
    let view = view_of(alloc, image, clients(alloc)?)?;
    right_net(alloc, image, &view, submission)
}

/// Makes the change of the net, without writing blocks.
pub fn apply_alone<A: Allocator + Clone>(
    alloc: &A,
    image: &mut Image<A>,
    net: &Net<A>,
) -> Result<(), AllocError>
    requires { IsLawful (after_net net.now image.old) }
    ensures err { OnErr result (image.new ≡ image.old) }
{
    let fill = Fill::empty(alloc)?;
    net_apply(alloc.clone()?, image, net, &fill)
}

/// Makes what client 7 hands in at the image, without writing blocks. Whether it can be made.
fn is_made<A: Allocator + Copy>(alloc: A, image: &mut Image<A>, made: Made<'_>) -> bool {
    match net_of(alloc, image, made) {
        Some(net) => apply_alone(&alloc, image, &net).is_ok(),
        None => false,
    }
}

/// A new image with this many blocks on tier 0, and with the nodes that the log makes.
pub fn image_with<A: Allocator + Copy>(alloc: A, blocks: u32, made: Made<'_>) -> Option<Image<A>> {
    let mut image = Image::fresh(alloc, TierSizes::new(blocks, 0, 0)?).ok()?;
    let is_made = is_made(alloc, &mut image, made);
    is_made.then_some(image)
}
