// The standing of a bib, from numbered entries.
ghost use Rattle.std.specs.Prelude.{◌≡◌, [], ◌∷◌, length};
ghost use Rattle.updates.specs.Applied.{applied};
ghost use Rattle.entries.specs.Sizes.{entry_bytes};
ghost use Rattle.entries.specs.Entries.{entry_at};
ghost use Rattle.entries.specs.Folded.{of_bib, standing_of};

use crate::read::read;
use updates::standing::Standing;

// The standing after entry n, which counts if it is of the bib.
#[tactic(auto, unfolding(updates::specs::Applied::applied))]
fn after(t: &[u8], n: u16, bib: u16, standing: Standing) -> Standing
    requires { length t.now ≡ entry_bytes }
    ensures { result ≡ applied (of_bib (entry_at t.now) bib (n ∷ [])) standing }
{
    let e = read(t, n);
    if e.bib == bib {
        let kind = e.kind;
        return updates::standing::apply(kind, e.v, standing);
    }
    standing
}

// The standing after the entries of the numbers in `order`, from a fresh day on.
pub fn standing(t: &[u8], order: &[u16], bib: u16) -> Standing
    requires { length t.now ≡ entry_bytes }
    ensures { result ≡ standing_of (entry_at t.now) bib order.now }
{
    order
        .iter()
        .fold(Standing::At(0), |s, n| after(t, *n, bib, s))
}
