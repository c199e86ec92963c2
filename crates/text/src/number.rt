// A decimal number and the byte behind it, put into a buffer.
ghost use Rattle.std.specs.Prelude.{◌≡◌, ◌+◌, ◌≤◌, length};
ghost use Rattle.text.specs.Decimal.{ended};
ghost use Rattle.text.specs.Placed.{placed};

use crate::put::put;

pub fn number(out: &mut [u8], at: usize, n: u64, mark: u8) -> usize
    requires { at + length (ended n mark) ≤ length out.old }
    ensures { (result ≡ at + length (ended n mark)) × (out.new ≡ placed out.old at (ended n mark)) }
{
    let mut digits = [0u8; 20];
    let k = io::decimal(n, &mut digits);
    let end = put(out, at, &digits[..k]);
    put(out, end, &[mark])
}
