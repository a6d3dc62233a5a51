//! The key of a hash, drawn from a text.

ghost use Rattle.std.specs.Prelude.{◌≡◌, ℕ, List};
ghost use Rattle.sha2.specs.Hashers.{Holds256};
ghost use Rattle.keyed_index.specs.Key.{begun_by, keyed_by};

use sha2::{Digest, Sha256};
use std::hash::{BuildHasher, DefaultHasher, Hasher};

/// The key of a hash, drawn from a text. A hash is SipHash-1-3 (Aumasson and Bernstein 2012) of the
/// SHA-256 digest of the text (FIPS 180-4), 32 bytes, and of the bytes of what is hashed behind it.
#[derive(Clone, Copy)]
pub struct TextKey {
    /// What has taken the digest.
    begun: DefaultHasher,
}

impl TextKey {
    /// The key of the bytes that a digest has taken.
    pub fn of_digest(digest: Sha256) -> TextKey
        ensures { (bytes : List ℕ) → Holds256 digest bytes
            → begun_by result ≡ keyed_by bytes }
    {
        let mut begun = DefaultHasher::new();
        begun.write(&digest.finalize());
        TextKey { begun }
    }

    /// The key of a text.
    pub fn of_text(text: &[u8]) -> TextKey
        ensures { begun_by result ≡ keyed_by text.now }
    {
        TextKey::of_digest(Sha256::new_with_prefix(text))
    }
}

impl BuildHasher for TextKey {
    type Hasher = DefaultHasher;

    ghost build_hasher = { begun_by };

    fn build_hasher(&self) -> DefaultHasher {
        self.begun
    }
}
