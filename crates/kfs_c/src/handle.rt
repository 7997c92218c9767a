//! What C sees as `struct kfs`: a desk, a view, a verdict or nothing, in memory that the host owns.
ghost use Rattle.std.specs.Prelude.{◌≡◌, None, Some, Option};
ghost use Rattle.kfs_c.specs.Handle.{handle_owns, taken};
ghost use Rattle.kfs_c.specs.declared.held.Held.{Held as HeldShown};

use crate::held::Held;
use crate::loose::Loose;
use std::alloc::Global;
use std::marker::Model;

/// A pointer, and whether something lies there. All zero is a handle that holds nothing. It isn't droppable:
/// what it holds is taken out before it goes.
#[repr(C)]
pub struct Handle {
    at: *mut u8,
    full: bool,
    /// What it holds.
    pub ghost value: { Option HeldShown },
}

impl Model for Handle {
    ghost also_owns = { λ h. handle_owns h.full h.at h.value };
}

impl Handle {
    /// A handle that holds nothing.
    pub fn empty() -> Handle
        ensures { result.value ≡ None }
    {
        Handle {
            at: std::ptr::null_mut(),
            full: false,
        }
    }

    /// A handle that holds this.
    pub fn full(loose: Loose<Held, Global>) -> Handle
        ensures { result.value ≡ Some loose.value }
    {
        let Loose { at, alloc: _ } = loose;
        Handle {
            at: at as *mut u8,
            full: true,
        }
    }

    /// What the handle holds, if it holds something.
    pub fn take(self, alloc: Global) -> Option<Loose<Held, Global>>
        ensures { self.value ≡ taken result }
    {
        let Handle { at, full } = self;
        if !full {
            return None;
        }
        Some(Loose {
            at: at as *mut Held,
            alloc,
        })
    }
}

// What a handle owns says the same to every thread.
unsafe impl Send for Handle {}
