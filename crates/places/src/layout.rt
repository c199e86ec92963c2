// The layout: the revisions that are out, right to left, in 64 places.
ghost use Rattle.std.specs.Prelude.{◌≡◌, [], ◌++◌, ◌∷◌, ◌==◌, length, take};
ghost use Rattle.std.specs.List.{position};
ghost use Rattle.lists.specs.Arranged.{insert_before, remove};

use crate::gaps;

// The first place of r.
pub fn find(t: &[u8], r: u8) -> Option<usize>
    ensures { result ≡ position (λ x. x == r) t.now }
{
    t.iter().position(|x| *x == r)
}

// b leaves the layout.
pub fn take_out(t: &mut [u8], b: u8)
    requires { length t.old ≡ 64 }
    ensures { t.new ≡ take 64 (remove b t.old ++ (0 ∷ [])) }
{
    if let Some(i) = find(t, b) {
        gaps::close(t, i, 0);
    }
}

// The child comes into the layout in front of the parent.
pub fn put_in(t: &mut [u8], parent: u8, child: u8)
    requires { length t.old ≡ 64 }
    ensures { t.new ≡ take 64 (insert_before parent child t.old) }
{
    if let Some(i) = find(t, parent) {
        gaps::open(t, i, child);
    }
}
