// Copies bytes from one place to another.
ghost use Rattle.std.specs.Prelude.{◌++◌, ◌≡◌, ◌≤◌, drop, length, take};

// Copies the first `count` bytes of `from` to the front of `to`.
pub(crate) fn copy_front(from: &[u8], to: &mut [u8], count: usize)
    requires given { count ≤ length from.now }
    requires room { count ≤ length to.old }
    ensures { to.new ≡ take count from.now ++ drop count to.old }
{
    to[..count].copy_from_slice(&from[..count]);
}
