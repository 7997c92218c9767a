//! The calls of a group, made again.
ghost use Rattle.std.specs.Prelude.{◌≡◌, IfErr, OnOk};
ghost use Rattle.kfs_model.specs.Judgement.{State};
ghost use Rattle.kfs_model.specs.Spelling.{IsBytes};
ghost use Rattle.kfs_kept.specs.Calls.Again.{WantsRoom};
ghost use Rattle.kfs_kept.specs.Calls.Group.{kept_shown};
ghost use Rattle.kfs_kept.specs.Calls.Leads.{GroupLeads, Leads};

use crate::calls::fault::AgainFault;
use crate::calls::group::{KeptCall, first_call};
use crate::calls::making::{answer_row, without_position};
use kfs_call_desk::{CallFault, call};
use kfs_desk::Desk;
use std::alloc::Allocator;

/// Makes the calls of a group again, one after another, each with the answer that is kept.
///
/// `alloc` serves the list of moves of a call. `Err` where the bytes are no group, where a
/// call has another answer now, where the docket is full, or where memory runs out. Some of the calls may be made
/// then.
pub fn make_again<A: Allocator + Copy, B: Allocator + Copy>(
    alloc: B,
    desk: &mut Desk<A>,
    group: &[u8],
) -> Result<(), AgainFault>
    ensures lead { OnOk result (GroupLeads desk.old.state group.now desk.new.state) }
    // A group leads to one state, and one that leads on is made, unless room is wanting.
    ensures only { (t : State) → GroupLeads desk.old.state group.now t → OnOk result (desk.new.state ≡ t) }
    ensures due { (t : State) → GroupLeads desk.old.state group.now t → IfErr result WantsRoom }
    ensures opening { desk.new.opening ≡ desk.old.opening }
{
    let mut rest = group;
    'calls: while let Some((kept, after)) = first_call(rest) {
        make_one(alloc, desk, &kept)?;
        rest = after;
    }
    if rest.is_empty() {
        Ok(())
    } else {
        Err(AgainFault::BadGroup)
    }
}

/// Makes a call again.
fn make_one<A: Allocator + Copy, B: Allocator + Copy>(
    alloc: B,
    desk: &mut Desk<A>,
    kept: &KeptCall<'_>,
) -> Result<(), AgainFault>
    requires bytes { IsBytes kept.now.call.now }
    ensures leads { OnOk result (Leads desk.old.state (kept_shown kept.now) desk.new.state) }
    ensures due { (t : State) → Leads desk.old.state (kept_shown kept.now) t → IfErr result WantsRoom }
    ensures opening { desk.new.opening ≡ desk.old.opening }
{
    let called = match call(alloc, desk, kept.call) {
        Ok(called) => called,
        Err(CallFault::BadCall(_)) => return Err(AgainFault::Differs),
        Err(CallFault::DocketFull) => return Err(AgainFault::DocketFull),
        Err(CallFault::OutOfMemory) => return Err(AgainFault::OutOfMemory),
    };
    let row = answer_row(&called);
    if without_position(&row) == kept.answer {
        Ok(())
    } else {
        Err(AgainFault::Differs)
    }
}
