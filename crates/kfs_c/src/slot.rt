//! What a handle holds, taken out and put in, and the frame of a call of a desk.
ghost use Rattle.std.specs.Prelude.{◌≡◌, None, Some, IfOk, IfErr, OnErr};
ghost use Rattle.std.specs.Option.{option_map};
ghost use Rattle.kfs_c.specs.Holding.{IsDesk, IsRefusal};

use crate::handle::Handle;
use crate::held::Held;
use crate::loose::Loose;
use crate::loose::status::{WRONG_KIND, closed};
use kfs_desk::Desk;
use std::alloc::Global;
use std::mem::replace;

/// Takes out what the handle holds, if it holds something.
pub(crate) fn take_out(alloc: Global, handle: &mut Handle) -> Option<Box<Held, Global>>
    ensures held { option_map (λ held. held.value) result ≡ handle.old.value }
    ensures emptied { handle.new.value ≡ None }
{
    let loose = replace(handle, Handle::empty()).take(alloc)?;
    Some(loose.into_box())
}

/// Has the handle hold this. What it held is freed.
pub(crate) fn put_in(alloc: Global, handle: &mut Handle, held: Box<Held, Global>)
    ensures { handle.new.value ≡ Some held.value }
{
    let before = replace(handle, Handle::full(Loose::of(held)));
    match before.take(alloc) {
        Some(loose) => drop(loose.into_box()),
        None => (),
    }
}

/// Takes out the box with the desk that the handle holds. Where it holds none, the error is `closed()` or
/// `WRONG_KIND`, and nothing has changed.
pub(crate) fn take_desk(alloc: Global, handle: &mut Handle) -> Result<Box<Held, Global>, u32>
    ensures taken { IfOk result (λ held. (handle.old.value ≡ Some held.value) × IsDesk held.value) }
    ensures untaken { IfErr result (IsRefusal handle.old.value) }
    ensures kept { OnErr result (handle.new.value ≡ handle.old.value) }
{
    let Some(held) = take_out(alloc, handle) else {
        return Err(closed());
    };
    match &*held {
        Held::Desk(_) => Ok(held),
        Held::View(_) => {
            put_in(alloc, handle, held);
            Err(WRONG_KIND)
        }
        Held::Verdict(_) => {
            put_in(alloc, handle, held);
            Err(WRONG_KIND)
        }
    }
}

/// The desk that is held.
pub(crate) fn desk_of(held: &Held) -> &Desk<Global>
    requires { IsDesk held.now }
    ensures { held.now ≡ Held.Desk result.now }
{
    match held {
        Held::Desk(desk) => desk,
        // The condition says that it is a desk.
        Held::View(_) | Held::Verdict(_) => unreachable!(),
    }
}

/// Makes a call of the desk that the handle holds, and answers its status. The desk is taken out for
/// the call, and put in again. Where the handle holds none, the status is `closed()` or `WRONG_KIND`.
#[macro_export]
macro_rules! on_desk {
    ($alloc:ident, $handle:ident, &mut $desk:ident => $call:expr) => {{
        match $crate::slot::take_desk($alloc, $handle) {
            Ok(mut held) => {
                let status = match &mut *held {
                    $crate::held::Held::Desk($desk) => $call,
                    // `take_desk` answers `Ok` for a desk alone.
                    $crate::held::Held::View(_) | $crate::held::Held::Verdict(_) => unreachable!(),
                };
                $crate::slot::put_in($alloc, $handle, held);
                status
            }
            Err(status) => status,
        }
    }};
    ($alloc:ident, $handle:ident, &$desk:ident => $call:expr) => {{
        match $crate::slot::take_desk($alloc, $handle) {
            Ok(held) => {
                let $desk = $crate::slot::desk_of(&held);
                let status = $call;
                $crate::slot::put_in($alloc, $handle, held);
                status
            }
            Err(status) => status,
        }
    }};
}

/// Makes a call of the view that the handle holds, and answers its status. Else as for `on_desk`.
#[macro_export]
macro_rules! on_view {
    ($alloc:ident, $handle:ident, &$view:ident => $call:expr) => {{
        match $crate::slot::take_out($alloc, $handle) {
            Some(held) => {
                let status = match &*held {
                    $crate::held::Held::View($view) => $call,
                    $crate::held::Held::Desk(_) | $crate::held::Held::Verdict(_) => {
                        $crate::loose::status::WRONG_KIND
                    }
                };
                $crate::slot::put_in($alloc, $handle, held);
                status
            }
            None => $crate::loose::status::closed(),
        }
    }};
}
