// Bytes copied to a place.
ghost use Rattle.std.specs.Prelude.{◌≡◌, ◌+◌, ◌≤◌, length};
ghost use Rattle.lists.specs.Arranged.{replaced};

pub fn put(t: &mut [u8], at: usize, from: &[u8])
    requires { at + length from.now ≤ length t.old }
    ensures { t.new ≡ replaced t.old at (length from.now) from.now }
{
    let end = at + from.len();
    t[at..end].copy_from_slice(from);
}

// All of t replaced.
pub fn copy(t: &mut [u8], from: &[u8])
    requires { length t.old ≡ length from.now }
    ensures { t.new ≡ from.now }
{
    t.copy_from_slice(from);
}
