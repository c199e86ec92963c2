// The standing of a bib, from the entries of a whole table, and what is told of it: for query and preview.
ghost use Rattle.std.specs.Prelude.{true, ◌≡◌, ◌+◌, ◌<◌, ◌≤◌, drop, length};
ghost use Rattle.lists.specs.Arranged.{behind};
ghost use Rattle.cells.specs.Sizes.{lower_bytes, revisions, updates};
ghost use Rattle.cells.specs.Cells.{outs};
ghost use Rattle.cells.specs.Decode.{cells};
ghost use Rattle.cells.specs.Order.{order};
ghost use Rattle.cells.specs.Range.{in_range};
ghost use Rattle.order.specs.Counts.{counts};
ghost use Rattle.updates.specs.Effect.{state_of, value_in};
ghost use Rattle.entries.specs.Sizes.{entry_bytes};
ghost use Rattle.entries.specs.Entries.{entry_at};
ghost use Rattle.entries.specs.Folded.{standing_of};
ghost use Rattle.table.specs.Halves.{low};
ghost use Rattle.table.specs.Out.{table_bytes};
ghost use Rattle.table.specs.Calls.{standing_at};

use crate::back::walk;
use order::visible::place_of;
use order::whole::fits;
use sizes::numbers::Revision;
use sizes::table::Table;
use table::answer::Reading;
use updates::standing::{Standing, State};

// What a query tells of a standing.
#[tactic(auto, unfolding(updates::specs::Effect::state_of, updates::specs::Effect::value_in))]
pub fn tell(standing: Standing) -> Reading
    ensures { result ≡ record { state = state_of standing; value = value_in standing } }
{
    let Standing::At(value) = standing else {
        return Reading {
            state: State::Struck,
            value: 0,
        };
    };
    if value == 0 {
        return Reading {
            state: State::Neither,
            value: 0,
        };
    }
    Reading {
        state: State::Timed,
        value,
    }
}

// The standing of a bib after the order of r, which stands in place j, where all its lists have room: by the walk back.
fn standing_back(d: &[u8], h: &[u8], r: Revision, j: usize, bib: u16) -> Standing
    requires { (length d.now ≡ lower_bytes) × (in_range d.now ≡ true) × (length h.now ≡ entry_bytes) × (r.0 < revisions) × (j ≤ revisions) × (behind r.0 (outs (cells d.now)) ≡ drop (j + 1) (outs (cells d.now))) × (counts (cells d.now) (drop (j + 1) (outs (cells d.now))) + (cells d.now).count r.0 ≤ updates) }
    ensures { result ≡ standing_of (entry_at h.now) bib (order (cells d.now) r.0) }
{
    let mut out = order::links::room();
    let from = walk(d, h, r, j, bib, &mut out);
    entries::standing::standing(h, &out[from..], bib)
}

// The same of any lists: along the order.
fn standing_along(d: &[u8], h: &[u8], r: Revision, bib: u16) -> Standing
    requires { (length d.now ≡ lower_bytes) × (in_range d.now ≡ true) × (length h.now ≡ entry_bytes) × (r.0 < revisions) }
    ensures { result ≡ standing_of (entry_at h.now) bib (order (cells d.now) r.0) }
{
    let mut out = order::links::room();
    let n = order::visible::list(d, r, &mut out);
    entries::standing::standing(h, &out[..n], bib)
}

// The standing of a bib after the updates visible at r, by the revisions in d and the entries in h. An order that may be cut off at its
// end, as on no day, is not walked back from there.
pub fn standing_on(d: &[u8], h: &[u8], r: Revision, bib: u16) -> Standing
    requires { (length d.now ≡ lower_bytes) × (in_range d.now ≡ true) × (length h.now ≡ entry_bytes) × (r.0 < revisions) }
    ensures { result ≡ standing_of (entry_at h.now) bib (order (cells d.now) r.0) }
{
    let j = place_of(d, r);
    if fits(d, r, j) {
        return standing_back(d, h, r, j, bib);
    }
    standing_along(d, h, r, bib)
}

// The same of a whole table.
pub(crate) fn standing_at(t: &[u8], r: Revision, bib: u16) -> Standing
    requires { (length t.now ≡ table_bytes) × (in_range (low t.now) ≡ true) × (r.0 < revisions) }
    ensures { result ≡ standing_at t.now r.0 bib }
{
    standing_on(&t[0..Table::LOWER], &t[Table::LOWER..Table::BYTES], r, bib)
}
