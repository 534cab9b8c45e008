ghost use Rattle.std.specs.Prelude.{◌≡◌};
ghost use Rattle.page_codec.specs.NewStore.{secret_of};

use sha2::{Digest, Sha256};

/// The secret of a file: the first eight bytes of SHA-256 over the store's key, the object and the generation, as
/// sixteen bytes, each number with its highest byte first.
#[tactic(auto, unfolding(crate::specs::NewStore::secret_of, crate::specs::Numbers::big_endian))]
pub fn secret_of(key: u64, object: u32, generation: u32) -> [u8; 8]
    ensures { result ≡ secret_of key object generation }
{
    let mut hasher = Sha256::new();
    hasher.update(key.to_be_bytes().as_slice());
    hasher.update(object.to_be_bytes().as_slice());
    hasher.update(generation.to_be_bytes().as_slice());
    let digest = hasher.finalize();
    let mut secret = [0; 8];
    secret.copy_from_slice(&digest[..8]);
    secret
}
