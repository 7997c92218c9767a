//! The line of a plan that is made.
ghost use Rattle.std.specs.Prelude.{◌≡◌, ◌++◌, OnOk, codes};
ghost use Rattle.kfs_model.specs.Device.ShownTree.{shown_tree};
ghost use Rattle.kfs_program.specs.Engine.PlanLine.{AppendsPlan, plan_text};
ghost use Rattle.kfs_program_text.specs.Parts.{line_of};

use kfs_image::Image;
use kfs_mode::Client;
use kfs_plan_maker::make_plan;
use std::alloc::{AllocError, Allocator};

/// Appends `plan HEX`, the plan of the client's log over the image as `make_plan` makes it, in lower
/// case hexadecimal; or `plan none`, where there is none. After `Err`, where memory runs out, part of
/// the line may be appended.
pub fn plan_line<A: Allocator + Copy>(
    alloc: A,
    out: &mut Vec<u8, A>,
    image: &Image<A>,
    client: &Client,
    log: &[u8],
) -> Result<(), AllocError>
    ensures { OnOk result (AppendsPlan client.now (shown_tree image.now) log.now out.old.items out.new.items) }
{
    match make_plan(alloc, image, client, log)? {
        Some(bytes) => push_plan(alloc, out, bytes.as_slice()),
        None => push_none(out),
    }
}

/// Appends the line that says that there is no plan.
fn push_none<A: Allocator>(out: &mut Vec<u8, A>) -> Result<(), AllocError>
    ensures { OnOk result (out.new.items ≡ out.old.items ++ line_of (codes "plan none")) }
{
    out.extend_from_slice(b"plan none\n")
}

/// Appends the line of a plan's bytes.
fn push_plan<A: Allocator + Copy>(
    alloc: A,
    out: &mut Vec<u8, A>,
    bytes: &[u8],
) -> Result<(), AllocError>
    ensures { OnOk result (out.new.items ≡ out.old.items ++ line_of (plan_text bytes.now)) }
{
    let digits = hex::encode(alloc, bytes)?;
    out.extend_from_slice(b"plan ")?;
    out.extend_from_slice(digits.as_bytes())?;
    out.extend_from_slice(b"\n")
}
