ghost use Rattle.std.specs.Prelude.{◌≡◌, ◌++◌, min, take, drop, length};

/// Copies as many bytes as both have, and returns how many.
pub fn copy_front(from: &[u8], to: &mut [u8]) -> usize
    ensures count { result ≡ min (length from.now) (length to.old) }
    ensures copied { to.new ≡ take result from.now ++ drop result to.old }
{
    let n = from.len().min(to.len());
    to[..n].copy_from_slice(&from[..n]);
    n
}
