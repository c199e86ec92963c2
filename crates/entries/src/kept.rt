// What a walk back along some numbers keeps of them for a bib.
ghost use Rattle.std.specs.Prelude.{◌≡◌, [], ◌∷◌, ◌<◌, ◌≤◌, length};
ghost use Rattle.entries.specs.Sizes.{entry_bytes, updates};
ghost use Rattle.entries.specs.Entries.{entry_at};
ghost use Rattle.entries.specs.Walked.{Walked};

use crate::read::{bib_at, kind_at};
use std::ops::ControlFlow;
use updates::kind::is_absolute;

// Number n goes in front of those kept, if its entry is of the bib. They stand in the buffer from a place on, in the order of the updates;
// the answer is that place. It breaks where the entry's effect is absolute: then no earlier number counts.
pub fn keep(t: &[u8], n: u16, bib: u16, out: &mut [u16], from: usize) -> ControlFlow<usize, usize>
    requires { (length t.now ≡ entry_bytes) × (n < updates) × (0 < from) × (from ≤ length out.old) }
    ensures { Walked (entry_at t.now) bib 1 (n ∷ []) out.old from out.new result }
{
    if bib_at(t, n) != bib {
        return ControlFlow::Continue(from);
    }
    let place = from - 1;
    out[place] = n;
    if is_absolute(kind_at(t, n)) {
        return ControlFlow::Break(place);
    }
    ControlFlow::Continue(place)
}
