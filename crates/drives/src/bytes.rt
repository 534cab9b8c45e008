// Reading and writing a range of a half.
ghost use Rattle.std.specs.Prelude.{◌≡◌, ◌+◌, ◌≤◌, length};
ghost use Rattle.drives.specs.Crash.{HasAt, Torn};
ghost use Rattle.drives.specs.Replay.{overwritten};

/// Copies the bytes from `at` on into the whole of `buf`.
pub fn copy_out(half: &Vec<u8>, at: u64, buf: &mut [u8])
    requires { at + length buf.old ≤ length half.now.items }
    ensures { HasAt at buf.new half.now.items }
{
    let start = at as usize;
    buf.copy_from_slice(&half[start..start + buf.len()]);
}

/// Writes the bytes over those from `at` on.
pub fn write_over(half: &mut Vec<u8>, at: u64, bytes: &[u8])
    requires { at + length bytes.now ≤ length half.old.items }
    ensures value { half.new.items ≡ overwritten at bytes.now half.old.items }
    ensures written { HasAt at bytes.now half.new.items }
    ensures range { Torn at (length bytes.now) half.old.items half.new.items }
{
    let start = at as usize;
    half[start..start + bytes.len()].copy_from_slice(bytes);
}
