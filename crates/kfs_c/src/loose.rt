//! A box taken apart: its pointer and its allocator, which own what the box owned. And the numbers that
//! exports to C answer (`status`). Begin with `Loose::of`, and with `Loose::into_box` for the way back.
pub mod status;

ghost use Rattle.std.specs.Prelude.{◌≡◌};
ghost use Rattle.std.specs.Box.Ownership.{box_owns};

use std::alloc::Allocator;
use std::marker::Model;

/// A box as its two parts. Its value lies at the pointer, with the right to free its memory there. It
/// is never dropped as such: what it owns then would be lost.
pub struct Loose<T, A: Allocator> {
    /// Where the value lies.
    pub at: *mut T,
    /// The allocator that gave the memory.
    pub alloc: A,
    /// The value.
    pub ghost value: { T },
}

impl<T, A: Allocator> Model for Loose<T, A> {
    ghost also_owns = { λ loose. box_owns (A.dealloc_token loose.alloc) T.row loose.at loose.value };
}

impl<T: Drop, A: Allocator> Loose<T, A> {
    /// Takes a box apart.
    pub fn of(boxed: Box<T, A>) -> Loose<T, A>
        ensures { result.value ≡ boxed.value }
    {
        let (at, alloc) = Box::into_raw_with_allocator(boxed);
        Loose { at, alloc }
    }

    /// The box again.
    pub fn into_box(self) -> Box<T, A>
        ensures { result.value ≡ self.value }
    {
        let Loose { at, alloc } = self;
        unsafe { Box::from_raw(alloc, at) }
    }
}
