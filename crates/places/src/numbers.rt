// Words of two bytes, the low byte first, and half bytes, in a part.
ghost use Rattle.std.specs.Prelude.{◌≡◌, ◌+◌, ◌*◌, ◌/◌, ◌<◌, length, set};
ghost use Rattle.cells.specs.Words.{byte, half, put_half, put_word, word};

use sizes::numbers::wide;

pub fn word_at(t: &[u8], r: usize) -> usize
    requires { 2 * r + 1 < length t.now }
    ensures { (result ≡ word t.now r) × (result < 65536) }
{
    usize::from(u16::from_le_bytes([t[2 * r], t[2 * r + 1]]))
}

pub fn put_word(t: &mut [u8], r: usize, v: usize)
    requires { (2 * r + 1 < length t.old) × (v < 65536) }
    ensures { t.new ≡ put_word t.old r v }
{
    t[2 * r..2 * r + 2].copy_from_slice(&(v as u16).to_le_bytes());
}

pub fn half_at(t: &[u8], u: usize) -> usize
    requires { u / 2 < length t.now }
    ensures { (result ≡ half t.now u) × (result < 16) }
{
    let b = wide(t[u / 2]);
    if u % 2 == 0 { b % 16 } else { b / 16 }
}

pub fn put_half(t: &mut [u8], u: usize, v: usize)
    requires { (u / 2 < length t.old) × (v < 16) }
    ensures { t.new ≡ put_half t.old u v }
{
    let b = wide(t[u / 2]);
    if u % 2 == 0 {
        t[u / 2] = (b / 16 * 16 + v) as u8;
        return;
    }
    t[u / 2] = (b % 16 + 16 * v) as u8;
}

pub fn byte_at(t: &[u8], i: usize) -> usize
    requires { i < length t.now }
    ensures { (result ≡ byte t.now i) × (result < 256) }
{
    wide(t[i])
}

pub fn put_byte(t: &mut [u8], i: usize, v: usize)
    requires { (i < length t.old) × (v < 256) }
    ensures { t.new ≡ set t.old i v }
{
    t[i] = v as u8;
}
