// Six bytes decoded: every six bytes are some entry.
ghost use Rattle.std.specs.Prelude.{◌≡◌, length};
ghost use Rattle.entries.specs.Stored.{kind_after, decoded};

use crate::entry::Entry;
use updates::kind::Kind;

// The kind whose number is one more than n, for n below 4.
#[tactic(auto, unfolding(crate::specs::Stored::kind_after))]
fn kind_after(n: u8) -> Kind
    ensures { result ≡ kind_after n }
{
    match n {
        0 => Kind::Time,
        1 => Kind::Earliest,
        2 => Kind::Penalty,
        _ => Kind::Strike,
    }
}

#[tactic(auto, unfolding(crate::specs::Stored::decoded))]
pub fn bib_of(p: &[u8]) -> u16
    requires { length p.now ≡ 6 }
    ensures { result ≡ (decoded p.now).bib }
{
    u16::from_le_bytes([p[0], p[1] % 4])
}

#[tactic(auto, unfolding(crate::specs::Stored::decoded))]
pub fn kind_of(p: &[u8]) -> Kind
    requires { length p.now ≡ 6 }
    ensures { result ≡ (decoded p.now).kind }
{
    kind_after(p[1] / 4 % 4)
}

#[tactic(auto, unfolding(crate::specs::Stored::decoded))]
pub fn load(p: &[u8]) -> Entry
    requires { length p.now ≡ 6 }
    ensures { result ≡ decoded p.now }
{
    let kind = kind_of(p);
    let bib = bib_of(p);
    let v = u32::from_le_bytes([p[2], p[3], p[4], p[5]]);
    Entry {
        kind,
        client: p[1] / 16,
        bib,
        v,
    }
}
