// Every byte 0.
ghost use Rattle.std.specs.Prelude.{◌≡◌, length, replicate};

pub fn clear(t: &mut [u8])
    ensures { t.new ≡ replicate (length t.old) 0 }
{
    t.fill(0);
}
