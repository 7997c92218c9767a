//! Which places of a tier are free. A place: a block of a tier's device.
ghost use Rattle.std.specs.Prelude.{◌≡◌, ◌<◌, true, false, IsTrue, IfSome, IfNone, IfOk, length, replicate, slice_set};
ghost use Rattle.kfs_image.specs.Tier.Places.{is_free_in, free_count, IsNextFree, AreUsedFrom};

use crate::tier::bits;
use std::alloc::{AllocError, Allocator};
use std::marker::Model;

/// The places of a tier, counted from 0. Contracts see a list that says of each whether it is free.
#[derive(Drop)]
pub struct Places<A: Allocator> {
    /// A bit for each place, set where the place is used.
    used: Vec<u64, A>,
    size: u32,
    free: u32,
}

impl<A: Allocator> Model for Places<A> {
    ghost use Rattle.std.specs.Prelude.{Bool, List};
    ghost use Rattle.kfs_image.specs.Tier.Words.{places_of, AreCounted};

    ghost Value = { List Bool };

    ghost view = { λ p. places_of p.used.items p.size };

    ghost invariant = { λ p. AreCounted p.used.items p.size p.free };
}

impl<A: Allocator> Places<A> {
    /// `size` places, all free. Takes one bit of memory for each; `Err` where memory runs out.
    pub fn new(alloc: A, size: u32) -> Result<Places<A>, AllocError>
        ensures { IfOk result (λ places. places ≡ replicate size true) }
    {
        let used = vec![in alloc; 0; size.div_ceil(64) as usize]?;
        Ok(Places {
            used,
            size,
            free: size,
        })
    }

    /// How many places there are. Takes no memory.
    #[tactic(auto, using(crate::proofs::TierLemmas::PlaceLists::shown))]
    pub fn size(&self) -> u32
        ensures { result ≡ length self.now }
    {
        self.size
    }

    /// How many places are free. Takes no memory.
    pub fn free(&self) -> u32
        ensures { result ≡ free_count self.now }
    {
        self.free
    }

    /// Whether the place is below the tier's size and free. Takes no memory.
    #[tactic(auto, using(crate::proofs::TierLemmas::PlaceLists::shown))]
    pub fn is_free(&self, place: u32) -> bool
        ensures { result ≡ is_free_in self.now place }
    {
        place < self.size && !bits::is_marked(self.used.as_slice(), place)
    }

    /// The least free place from `from` on, or none. Takes no memory.
    pub fn next_free(&self, from: u32) -> Option<u32>
        ensures found { IfSome result (λ place. IsNextFree self.now from place) }
        ensures none { IfNone result (AreUsedFrom self.now from) }
    {
        let size = self.size as usize;
        let place = bits::next_clear(self.used.as_slice(), from)?;
        if place < size {
            Some(place as u32)
        } else {
            None
        }
    }

    /// Marks a free place as used. Takes no memory.
    pub fn take(&mut self, place: u32)
        requires { IsTrue (is_free_in self.old place) }
        ensures { self.new ≡ slice_set self.old place false }
    {
        bits::mark(self.used.as_mut_slice(), place);
        self.free -= 1;
    }

    /// Marks a used place as free. Takes no memory.
    pub fn give_back(&mut self, place: u32)
        requires in_tier { place < length self.old }
        requires used { is_free_in self.old place ≡ false }
        ensures { self.new ≡ slice_set self.old place true }
    {
        bits::clear(self.used.as_mut_slice(), place);
        self.free += 1;
    }
}

/// A tier and a block of its device. Such a block exists where `tier` is 0 to 2 and `place` is below
/// the tier's size.
#[derive(Clone, Copy, Debug, PartialEq, Eq)]
pub struct Place {
    /// 0 to 2 for a tier that exists.
    pub tier: u8,
    /// The number of the block on the device, from 0.
    pub place: u32,
}

impl Model for Place {
    ghost use Rattle.kfs_model.specs.Placement.{Place as ModelPlace};

    ghost Value = { ModelPlace };

    ghost view = { λ p. record { tier = p.tier; place = p.place } };

    ghost inverse = { λ v. record { tier = v.tier; place = v.place } };
}
