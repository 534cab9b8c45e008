// What comes back where a half failed.
use drives::Half;

/// A half failed before the new store was there: the drives, and the half.
#[derive(Drop)]
pub struct Unformatted<V> {
    pub drives: V,
    pub half: Half,
}
