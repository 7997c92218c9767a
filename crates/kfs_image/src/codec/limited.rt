//! Numbers up to a limit.
ghost use Rattle.std.specs.Prelude.{◌≡◌, ◌≤◌, length, drop, IfSome};
ghost use Rattle.kfs_model.proofs.DeviceLemmas.ImageReading.{limited_read, tier_read};
ghost use Rattle.kfs_entry.specs.Codec.Reading.{seen};

use kfs_entry::codec::{byte, number32};

/// The tier with the greatest number.
const GREATEST_TIER: u8 = 2;

/// The number of 4 bytes at position `at`, and the position after it; none where no such number is there
/// or it is over the limit.
#[tactic(auto, unfolding(kfs_model::proofs::DeviceLemmas::ImageReading::limited_read))]
pub fn read(source: &[u8], at: usize, limit: u32) -> Option<(u32, usize)>
    requires { at ≤ length source.now }
    ensures value { seen (λ n. n) source.now result ≡ limited_read limit (drop at source.now) }
    ensures within { IfSome result (λ x. (x.0 ≤ limit) × (x.1 ≤ length source.now)) }
{
    let (number, at) = number32::read(source, at)?;
    if number > limit {
        return None;
    }
    Some((number, at))
}

/// The tier at position `at`, and the position after it; none where no tier is there.
#[tactic(auto, unfolding(kfs_model::proofs::DeviceLemmas::ImageReading::tier_read))]
pub fn read_tier(source: &[u8], at: usize) -> Option<(u8, usize)>
    requires { at ≤ length source.now }
    ensures value { seen (λ n. n) source.now result ≡ tier_read (drop at source.now) }
    ensures within { IfSome result (λ x. x.1 ≤ length source.now) }
{
    let (tier, at) = byte::read(source, at)?;
    if tier > GREATEST_TIER {
        return None;
    }
    Some((tier, at))
}
