//! What a frame asks that makes no call of a desk.
ghost use Rattle.std.specs.Prelude.{◌≡◌, IfOk, IfSome, IsNone};
ghost use Rattle.kfs_server.specs.Frames.Begun.{IsFrameOf};
ghost use Rattle.kfs_server.specs.Frames.Frame.{Frame};
ghost use Rattle.kfs_server.specs.LookUps.LookUp.{AsksLookUp, IsLookUp, IsNoLookUp, look_up_bytes};
ghost use Rattle.kfs_server.specs.LookUps.Views.{look_up_shown};
ghost use Rattle.kfs_server.specs.Asking.{HasNoLookUp};

use crate::look_ups::reading::read_look_up;
use kfs_call::Incoming;
use kfs_types::Name;
use std::alloc::Allocator;

/// What a frame asks that makes no call of a desk.
#[derive(Clone, Copy, Debug, PartialEq, Eq)]
pub enum LookUp<'a> {
    /// 40: the header of the node with this number.
    Node {
        number: u32,
    },
    /// 41: the desk's figures.
    State,
    /// 42: that the journal is begun anew.
    Checkpoint,
    /// 43: where the name of the directory leads.
    Find {
        directory: u32,
        name: Name,
    },
    /// 44: the names of the directory behind `after`, or from the first one on, in at most `limit` bytes.
    Names {
        directory: u32,
        limit: u32,
        after: Option<Name>,
    },
    /// 45: at most `count` bytes of the file, from position `start` on.
    Read {
        file: u32,
        start: u64,
        count: u32,
    },
    /// 46: the places of the three tiers, and how many of them are free.
    Places,
    /// 47: the sender's own leases on nodes from the number `first` on, in at most `limit` bytes.
    Leases {
        first: u32,
        limit: u32,
    },
    /// 48: the plan of the sender's own log, whose bytes these are.
    Plan {
        log: &'a [u8],
    },
}

/// The look-up that these bytes are, with nothing behind it. None where they are none's.
pub fn look_up_of(body: &[u8]) -> Option<LookUp<'_>>
    ensures some { IfSome result (λ look_up. (body.entry.now ≡ look_up_bytes (look_up_shown look_up)) × IsLookUp (look_up_shown look_up)) }
    ensures none { IsNone result → IsNoLookUp body.entry.now }
{
    read_look_up(body)
}

/// The look-up that the frame asks for. None where its body is no look-up's, or isn't kept.
pub(crate) fn look_up_in<A: Allocator>(incoming: &Incoming<A>) -> Option<LookUp<'_>>
    ensures some { IfSome result (λ look_up. (f : Frame) → IsFrameOf incoming.entry.now f → AsksLookUp f (look_up_shown look_up)) }
    ensures none { IsNone result → HasNoLookUp incoming.entry.now }
{
    match &incoming.body {
        Ok(body) => look_up_of(body),
        Err(_) => None,
    }
}
