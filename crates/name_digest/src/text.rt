// The digest of a text.
ghost use Rattle.std.specs.Prelude.{◌≡◌};
ghost use Rattle.name_digest.specs.Digest.{digest_from};

/// The digest of a text behind a number.
pub fn digest(start: u32, text: &str) -> u64
    ensures digest { result ≡ digest_from start text.now }
{
    let mut digest = start as u64;
    for byte in text.as_bytes() {
        digest = digest.wrapping_mul(31).wrapping_add(*byte as u64);
    }
    digest
}
