//! One bit for each place, 64 places to a word.
ghost use Rattle.std.specs.Prelude.{◌≡◌, ℕ, ◌+◌, ◌*◌, ◌<◌, ◌≤◌, ◌^◌, ◌==◌, true, false, length, IfSome, IfNone, if◌then◌else◌};
ghost use Rattle.kfs_image.specs.Tier.Words.{is_marked, IsNextClear};

/// Whether the place's bit is set.
pub(crate) fn is_marked(words: &[u64], place: u32) -> bool
    requires { place < 64 * length words.now }
    ensures { result ≡ is_marked words.now place }
{
    words[place as usize / 64] >> (place % 64) & 1 == 1
}

/// Sets the place's bit.
pub(crate) fn mark(words: &mut [u64], place: u32)
    requires { place < 64 * length words.old }
    ensures { (q : ℕ) → is_marked words.new q ≡ (if q == place then true else is_marked words.old q) }
{
    words[place as usize / 64] |= 1 << (place % 64);
}

/// Clears the place's bit.
pub(crate) fn clear(words: &mut [u64], place: u32)
    requires { place < 64 * length words.old }
    ensures { (q : ℕ) → is_marked words.new q ≡ (if q == place then false else is_marked words.old q) }
{
    words[place as usize / 64] &= !(1 << (place % 64));
}

/// The least place from this one on whose bit is clear.
pub(crate) fn next_clear(words: &[u64], from: u32) -> Option<usize>
    requires { 64 * length words.now < 2 ^ 64 }
    ensures found { IfSome result (λ place. IsNextClear words.now from place) }
    ensures none { IfNone result ((q : ℕ) → from ≤ q → q < 64 * length words.now → is_marked words.now q ≡ true) }
{
    // Bits below the place, in its own word, count as set.
    let mut passed = (1 << (from % 64)) - 1;
    let mut index = from as usize / 64;
    while index < words.len() {
        let word = words[index] | passed;
        if word != u64::MAX {
            return Some(64 * index + word.trailing_ones() as usize);
        }
        passed = 0;
        index += 1;
    }
    None
}
