// An entry put into six bytes.
ghost use Rattle.std.specs.Prelude.{◌≡◌, ◌-◌, ◌<◌, length};
ghost use Rattle.updates.specs.Kinds.{kind_number};
ghost use Rattle.entries.specs.Sizes.{clients, bib_range};
ghost use Rattle.entries.specs.Stored.{entry, stored};

use sizes::numbers::Client;
use updates::kind::Kind;

// The kind in two bits: one less than its number.
#[tactic(auto, unfolding(updates::specs::Kinds::kind_number))]
fn two_bits(kind: Kind) -> u8
    ensures { (result ≡ kind_number kind - 1) × (result < 4) }
{
    u8::from(kind) - 1
}

#[tactic(auto, unfolding(crate::specs::Stored::stored))]
pub fn store(p: &mut [u8], kind: Kind, c: Client, bib: u16, v: u32)
    requires { (length p.old ≡ 6) × (c.0 < clients) × (bib < bib_range) }
    ensures { p.new ≡ stored (entry kind c.0 bib v) }
{
    let [low, high] = bib.to_le_bytes();
    let [v0, v1, v2, v3] = v.to_le_bytes();
    p.copy_from_slice(&[low, c.0 * 16 + two_bits(kind) * 4 + high, v0, v1, v2, v3]);
}
