//! Runs of bytes in the source.
ghost use Rattle.std.specs.Prelude.{◌≡◌, ◌+◌, ◌<◌, ◌≤◌, length, drop, IfNone, IfSome};
ghost use Rattle.kfs_model.proofs.Reading.{bytes_read};
ghost use Rattle.kfs_entry.specs.Codec.Reading.{IsChunk, seen};

/// The `N` bytes at position `at`, and the position after them; none where fewer are left.
pub fn chunk<const N: usize>(source: &[u8], at: usize) -> Option<(&[u8; N], usize)>
    requires { at ≤ length source.now }
    ensures none { IfNone result (length (drop at source.now) < N) }
    ensures found { IfSome result (λ x. IsChunk source.now at N x.0.now x.1) }
{
    let (front, _) = source[at..].split_first_chunk::<N>()?;
    Some((front, at + N))
}

/// The `count` bytes at position `at`, and the position after them; none where fewer are left.
pub fn run(source: &[u8], at: usize, count: usize) -> Option<(&[u8], usize)>
    requires { at ≤ length source.now }
    ensures value { seen (λ bytes. bytes.now) source.now result ≡ bytes_read count (drop at source.now) }
    ensures within { IfSome result (λ x. (x.1 ≡ at + count) × (x.1 ≤ length source.now)) }
{
    let rest = &source[at..];
    if count > rest.len() {
        return None;
    }
    Some((&rest[..count], at + count))
}
