//! A field of one byte.
ghost use Rattle.std.specs.Prelude.{◌≡◌, ◌≤◌, length, drop, IfSome};
ghost use Rattle.kfs_model.proofs.Reading.{byte_read};
ghost use Rattle.kfs_entry.specs.Codec.Reading.{seen};

/// The field at position `at`, and the position after it; none where no such field is there.
#[tactic(auto, unfolding(kfs_model::proofs::Reading::byte_read))]
pub fn read(source: &[u8], at: usize) -> Option<(u8, usize)>
    requires { at ≤ length source.now }
    ensures value { seen (λ n. n) source.now result ≡ byte_read (drop at source.now) }
    ensures within { IfSome result (λ x. x.1 ≤ length source.now) }
{
    let byte = *source.get(at)?;
    Some((byte, at + 1))
}
