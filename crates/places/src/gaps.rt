// A place of 64 taken out or put in: for the layout and the queue.
ghost use Rattle.std.specs.Prelude.{◌≡◌, [], ◌++◌, ◌∷◌, ◌+◌, ◌<◌, drop, length, take};

use sizes::table::Table;

// The last place.
const LAST_PLACE: usize = Table::REVISIONS - 1;

// What stands behind place i moves one place to the front, and the last place takes `last`.
pub fn close(t: &mut [u8], i: usize, last: u8)
    requires { (length t.old ≡ 64) × (i < 64) }
    ensures { t.new ≡ (take i t.old ++ drop (i + 1) t.old) ++ (last ∷ []) }
{
    t.copy_within(i + 1.., i);
    t[LAST_PLACE] = last;
}

// What stands at place i and behind it moves one place back; the last falls out. x comes to place i.
pub fn open(t: &mut [u8], i: usize, x: u8)
    requires { (length t.old ≡ 64) × (i < 64) }
    ensures { t.new ≡ take 64 (take i t.old ++ (x ∷ drop i t.old)) }
{
    t.copy_within(i..LAST_PLACE, i + 1);
    t[i] = x;
}
