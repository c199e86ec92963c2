// Numbers of up to four bytes, the least significant first.
ghost use Rattle.std.specs.Prelude.{◌≡◌, ◌^◌, ◌≤◌, ◌<◌, length};
ghost use Rattle.buffers.specs.Numbers.{number};

pub fn read(p: &[u8]) -> u64
    requires { length p.now ≤ 4 }
    ensures { (result ≡ number p.now) × (result < 256 ^ length p.now) }
{
    let mut value: u64 = 0;
    for i in (0..p.len()).rev() {
        value = u64::from(p[i]) + 256 * value;
    }
    value
}
