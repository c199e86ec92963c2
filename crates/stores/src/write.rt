// Each cell written, by name: every function writes one part.
ghost use Rattle.std.specs.Prelude.{◌≡◌, [], ◌++◌, ◌∷◌, ◌<◌, eqb, length, set, take};
ghost use Rattle.lists.specs.Lists.{rest_of};
ghost use Rattle.lists.specs.Arranged.{insert_before, remove};
ghost use Rattle.cells.specs.Sizes.{lower_bytes, clients, revisions, updates};
ghost use Rattle.cells.specs.Parts.{split, wrote, low_part, high_part, seen_part, caught_part, state_part, used_part, last_part, first_part};
ghost use Rattle.cells.specs.Parts.{count_part, base_part, layout_part, queue_part, opened_part, counters_part, names_part, rows_part, settled_part, started_part};
ghost use Rattle.cells.specs.Words.{put_half, put_name, put_word};
ghost use Rattle.cells.specs.Flags.{flag_at, pack, put_row};
ghost use Rattle.cells.specs.Decode.{cells};
ghost use Rattle.lists.specs.Pool.{fork_pool, join_pool};
ghost use Rattle.cells.specs.CellSteps.{fork_caught, join_caught};
ghost use Rattle.cells.specs.Steps.{put_row_of};

use places::names::put_name;
use places::numbers::{put_byte, put_half, put_word};
use places::parts::{
    BASE, CAUGHT, COUNT, COUNTERS, FIRST, HIGH, KEPT, LAST, LAYOUT, LOW, NAMES, OPENED, QUEUE,
    ROWS, SEEN, SETTLED, SINGLE, STARTED, STATE, USED,
};
use places::{gaps, layout};
use sizes::numbers::{Client, Revision, wide};
use sizes::table::Table;

pub fn state(d: &mut [u8], r: Revision, v: usize)
    requires { (length d.old ≡ lower_bytes) × (r.0 < revisions) × (v < 256) }
    ensures { d.new ≡ wrote d.old state_part (set (split d.old state_part) r.0 v) }
{
    put_byte(&mut d[STATE..USED], wide(r.0), v);
}

pub fn used(d: &mut [u8], r: Revision, v: usize)
    requires { (length d.old ≡ lower_bytes) × (r.0 < revisions) × (v < 256) }
    ensures { d.new ≡ wrote d.old used_part (set (split d.old used_part) r.0 v) }
{
    put_byte(&mut d[USED..LAST], wide(r.0), v);
}

pub fn last(d: &mut [u8], r: Revision, v: usize)
    requires { (length d.old ≡ lower_bytes) × (r.0 < revisions) × (v < 65536) }
    ensures { d.new ≡ wrote d.old last_part (put_word (split d.old last_part) r.0 v) }
{
    put_word(&mut d[LAST..FIRST], wide(r.0), v);
}

pub fn first(d: &mut [u8], r: Revision, v: usize)
    requires { (length d.old ≡ lower_bytes) × (r.0 < revisions) × (v < 65536) }
    ensures { d.new ≡ wrote d.old first_part (put_word (split d.old first_part) r.0 v) }
{
    put_word(&mut d[FIRST..COUNT], wide(r.0), v);
}

pub fn count(d: &mut [u8], r: Revision, v: usize)
    requires { (length d.old ≡ lower_bytes) × (r.0 < revisions) × (v < 65536) }
    ensures { d.new ≡ wrote d.old count_part (put_word (split d.old count_part) r.0 v) }
{
    put_word(&mut d[COUNT..BASE], wide(r.0), v);
}

pub fn base(d: &mut [u8], r: Revision, v: usize)
    requires { (length d.old ≡ lower_bytes) × (r.0 < revisions) × (v < 65536) }
    ensures { d.new ≡ wrote d.old base_part (put_word (split d.old base_part) r.0 v) }
{
    put_word(&mut d[BASE..LAYOUT], wide(r.0), v);
}

pub fn opened(d: &mut [u8], c: Client, v: usize)
    requires { (length d.old ≡ lower_bytes) × (c.0 < clients) × (v < 256) }
    ensures { d.new ≡ wrote d.old opened_part (set (split d.old opened_part) c.0 v) }
{
    put_byte(&mut d[OPENED..COUNTERS], wide(c.0), v);
}

// The low 8 bits of a link, and its high 4 bits.
pub fn link_low(d: &mut [u8], u: usize, v: usize)
    requires { (length d.old ≡ lower_bytes) × (u < updates) × (v < 256) }
    ensures { d.new ≡ wrote d.old low_part (set (split d.old low_part) u v) }
{
    put_byte(&mut d[LOW..HIGH], u, v);
}

pub fn link_high(d: &mut [u8], u: usize, v: usize)
    requires { (length d.old ≡ lower_bytes) × (u < updates) × (v < 16) }
    ensures { d.new ≡ wrote d.old high_part (put_half (split d.old high_part) u v) }
{
    put_half(&mut d[HIGH..SEEN], u, v);
}

pub fn updates(d: &mut [u8], v: usize)
    requires { (length d.old ≡ lower_bytes) × (v < 65536) }
    ensures { d.new ≡ wrote d.old counters_part (put_word (split d.old counters_part) 0 v) }
{
    put_word(&mut d[COUNTERS..NAMES], Table::UPDATES_TAKEN, v);
}

pub fn out(d: &mut [u8], v: usize)
    requires { (length d.old ≡ lower_bytes) × (v < 256) }
    ensures { d.new ≡ wrote d.old counters_part (set (split d.old counters_part) 2 v) }
{
    put_byte(&mut d[COUNTERS..NAMES], Table::REVISIONS_OUT, v);
}

pub fn given(d: &mut [u8], v: usize)
    requires { (length d.old ≡ lower_bytes) × (v < 256) }
    ensures { d.new ≡ wrote d.old counters_part (set (split d.old counters_part) 3 v) }
{
    put_byte(&mut d[COUNTERS..NAMES], Table::NUMBERS_GIVEN, v);
}

// The name of r, of four bytes.
pub fn name(d: &mut [u8], r: Revision, name: &[u8])
    requires { (length d.old ≡ lower_bytes) × (r.0 < revisions) × (length name.now ≡ 4) }
    ensures { d.new ≡ wrote d.old names_part (put_name (split d.old names_part) r.0 name.now) }
{
    put_name(&mut d[NAMES..SINGLE], wide(r.0), name);
}

// So many of the main revision's own updates are of closed transactions (02, U10).
pub fn settled(d: &mut [u8], v: usize)
    requires { (length d.old ≡ lower_bytes) × (v < 65536) }
    ensures { d.new ≡ wrote d.old settled_part (put_word (split d.old settled_part) 0 v) }
{
    put_word(&mut d[SETTLED..STARTED], 0, v);
}

// So many boxes were started (02, U14).
pub fn started(d: &mut [u8], v: usize)
    requires { (length d.old ≡ lower_bytes) × (v < 65536) }
    ensures { d.new ≡ wrote d.old started_part (put_word (split d.old started_part) 0 v) }
{
    put_word(&mut d[STARTED..KEPT], 0, v);
}

// Client c has caught up with r alone.
pub fn caught_only(d: &mut [u8], c: Client, r: Revision)
    requires { (length d.old ≡ lower_bytes) × (c.0 < clients) × (r.0 < revisions) }
    ensures { d.new ≡ wrote d.old caught_part (put_row 8 (split d.old caught_part) c.0 (λ y. eqb y r.0)) }
{
    flags::packed::set_only(&mut d[CAUGHT..STATE], c, r);
}

// The parent forked the child: the seen flags.
pub fn fork_seen(d: &mut [u8], parent: Revision, child: Revision)
    requires { (length d.old ≡ lower_bytes) × (parent.0 < revisions) × (child.0 < revisions) }
    ensures { d.new ≡ wrote d.old seen_part (pack revisions (fork_pool (cells d.old).seen parent.0 child.0)) }
{
    flags::packed::fork_seen(&mut d[SEEN..CAUGHT], parent, child);
}

// a joined b: the seen flags.
pub fn join_seen(d: &mut [u8], a: Revision, b: Revision)
    requires { (length d.old ≡ lower_bytes) × (a.0 < revisions) × (b.0 < revisions) }
    ensures { d.new ≡ wrote d.old seen_part (put_row 8 (split d.old seen_part) a.0 (join_pool (cells d.old).seen a.0 b.0 a.0)) }
{
    flags::packed::join_seen(&mut d[SEEN..CAUGHT], a, b);
}

// The parent forked the child: the caught-up flags.
pub fn fork_caught(d: &mut [u8], parent: Revision, child: Revision)
    requires { (length d.old ≡ lower_bytes) × (parent.0 < revisions) × (child.0 < revisions) }
    ensures { d.new ≡ wrote d.old caught_part (pack clients (fork_caught (cells d.old).caught parent.0 child.0)) }
{
    flags::packed::fork_caught(&mut d[CAUGHT..STATE], parent, child);
}

// a joined b: the caught-up flags.
pub fn join_caught(d: &mut [u8], a: Revision, b: Revision)
    requires { (length d.old ≡ lower_bytes) × (a.0 < revisions) × (b.0 < revisions) }
    ensures { d.new ≡ wrote d.old caught_part (pack clients (join_caught (cells d.old).caught a.0 b.0)) }
{
    flags::packed::join_caught(&mut d[CAUGHT..STATE], a, b);
}

// The child comes into the layout in front of the parent.
pub fn enter(d: &mut [u8], parent: Revision, child: Revision)
    requires { length d.old ≡ lower_bytes }
    ensures { d.new ≡ wrote d.old layout_part (take revisions (insert_before parent.0 child.0 (split d.old layout_part))) }
{
    layout::put_in(&mut d[LAYOUT..QUEUE], parent.0, child.0);
}

// b leaves the layout.
pub fn leave(d: &mut [u8], b: Revision)
    requires { length d.old ≡ lower_bytes }
    ensures { d.new ≡ wrote d.old layout_part (take revisions (remove b.0 (split d.old layout_part) ++ (0 ∷ []))) }
{
    layout::take_out(&mut d[LAYOUT..QUEUE], b.0);
}

// b's number comes to a place of the queue.
pub fn queued(d: &mut [u8], i: usize, b: Revision)
    requires { (length d.old ≡ lower_bytes) × (i < revisions) }
    ensures { d.new ≡ wrote d.old queue_part (set (split d.old queue_part) i b.0) }
{
    put_byte(&mut d[QUEUE..OPENED], i, wide(b.0));
}

// The number in the first place of the queue leaves it.
pub fn unqueued(d: &mut [u8])
    requires { length d.old ≡ lower_bytes }
    ensures { d.new ≡ wrote d.old queue_part (rest_of (split d.old queue_part) ++ (1 ∷ [])) }
{
    gaps::close(&mut d[QUEUE..OPENED], 0, Table::UNQUEUED);
}

// The row of revision r, which is not the main revision.
pub fn row(d: &mut [u8], r: Revision, row: [u8; Table::ROW])
    requires { (length d.old ≡ lower_bytes) × (0 < r.0) × (r.0 < revisions) }
    ensures { d.new ≡ wrote d.old rows_part (put_row_of (split d.old rows_part) r.0 (flag_at row)) }
{
    let x = wide(r.0) - 1;
    places::rows::put(&mut d[ROWS..LOW], x, row);
}
