//! Whether a block can be put at a place, found out as a test runs.
ghost use Rattle.std.specs.Prelude.{◌≡◌, ◌<◌, true, option_map, IsTrue};
ghost use Rattle.kfs_types.specs.Views.{header_of};
ghost use Rattle.kfs_model.specs.Placement.{tier_size, is_free};
ghost use Rattle.kfs_image.specs.Net.{blocks_in};

use kfs_image::{Header, Image, Kind, Place};
use kfs_types::BLOCK_SIZE;
use std::alloc::Allocator;

/// How many blocks the file has; 0 where there is no file.
pub fn block_count(header: Option<Header>) -> u64
    ensures { result ≡ blocks_in (option_map header_of header) }
{
    match header {
        Some(header) if header.kind == Kind::File => header.size.div_ceil(BLOCK_SIZE),
        _ => 0,
    }
}

/// Whether the place exists and is free.
pub fn is_place_free<A: Allocator>(image: &Image<A>, place: Place) -> bool
    ensures in_tier { IsTrue result → place.place < tier_size image.now.sizes place.tier }
    ensures free { IsTrue result → is_free image.now.placement place ≡ true }
{
    match image.next_free(place.tier, place.place) {
        Some(next) => next == place.place,
        None => false,
    }
}
