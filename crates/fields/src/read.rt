// Each cell read, by name.
ghost use Rattle.std.specs.Prelude.{◌≡◌, ◌<◌, length};
ghost use Rattle.lists.specs.Names.{same_name};
ghost use Rattle.cells.specs.Sizes.{lower_bytes, clients, revisions, updates};
ghost use Rattle.cells.specs.Words.{byte};
ghost use Rattle.cells.specs.Cells.{flagged};
ghost use Rattle.cells.specs.Decode.{cells};

use places::names::is_name;
use places::numbers::{byte_at, half_at, word_at};
use places::parts::{
    BASE, CAUGHT, COUNT, COUNTERS, FIRST, HIGH, KEPT, LAST, LAYOUT, LOW, NAMES, OPENED, QUEUE,
    SEEN, SETTLED, SINGLE, STARTED, STATE, USED,
};
use sizes::numbers::{Client, Revision, wide};
use sizes::table::Table;

// One of the four states of `Table`, on every table in range.
pub fn state(d: &[u8], r: Revision) -> usize
    requires { (length d.now ≡ lower_bytes) × (r.0 < revisions) }
    ensures { (result ≡ (cells d.now).state r.0) × (result < 256) }
{
    byte_at(&d[STATE..USED], wide(r.0))
}

// Whether the row of inherited updates is in use.
pub fn used(d: &[u8], r: Revision) -> bool
    requires { (length d.now ≡ lower_bytes) × (r.0 < revisions) }
    ensures { result ≡ (cells d.now).used r.0 }
{
    byte_at(&d[USED..LAST], wide(r.0)) == 1
}

// The last update of the own list.
pub fn last(d: &[u8], r: Revision) -> usize
    requires { (length d.now ≡ lower_bytes) × (r.0 < revisions) }
    ensures { (result ≡ (cells d.now).last r.0) × (result < 65536) }
{
    word_at(&d[LAST..FIRST], wide(r.0))
}

// The first update of the own list.
pub fn first(d: &[u8], r: Revision) -> usize
    requires { (length d.now ≡ lower_bytes) × (r.0 < revisions) }
    ensures { (result ≡ (cells d.now).first r.0) × (result < 65536) }
{
    word_at(&d[FIRST..COUNT], wide(r.0))
}

// How many updates the own list has.
pub fn count(d: &[u8], r: Revision) -> usize
    requires { (length d.now ≡ lower_bytes) × (r.0 < revisions) }
    ensures { (result ≡ (cells d.now).count r.0) × (result < 65536) }
{
    word_at(&d[COUNT..BASE], wide(r.0))
}

// How many of the main revision's updates were inherited by count.
pub fn base(d: &[u8], r: Revision) -> usize
    requires { (length d.now ≡ lower_bytes) × (r.0 < revisions) }
    ensures { (result ≡ (cells d.now).base r.0) × (result < 65536) }
{
    word_at(&d[BASE..LAYOUT], wide(r.0))
}

// The update before u in its list.
pub fn link(d: &[u8], u: usize) -> usize
    requires { (length d.now ≡ lower_bytes) × (u < updates) }
    ensures { (result ≡ (cells d.now).link u) × (result < updates) }
{
    let low = byte_at(&d[LOW..HIGH], u);
    let high = half_at(&d[HIGH..SEEN], u);
    low + 256 * high
}

// Whether r inherited u otherwise than by count.
pub fn inherited(d: &[u8], r: Revision, u: usize) -> bool
    requires { (length d.now ≡ lower_bytes) × (r.0 < revisions) × (u < updates) }
    ensures { result ≡ flagged (cells d.now) r.0 u }
{
    let x = wide(r.0);
    if x == 0 {
        return false;
    }
    if used(d, r) {
        return flags::bits::flag(d[Table::ROW * (x - 1) + u / 8], u % 8);
    }
    false
}

// Whether a has seen b's fork and not b's start.
pub fn seen(d: &[u8], a: Revision, b: Revision) -> bool
    requires { (length d.now ≡ lower_bytes) × (a.0 < revisions) × (b.0 < revisions) }
    ensures { result ≡ (cells d.now).seen a.0 b.0 }
{
    let x = wide(a.0);
    let y = wide(b.0);
    flags::bits::flag(d[SEEN + (8 * x + y / 8)], y % 8)
}

// Whether client c has caught up with r.
pub fn caught(d: &[u8], c: Client, r: Revision) -> bool
    requires { (length d.now ≡ lower_bytes) × (c.0 < clients) × (r.0 < revisions) }
    ensures { result ≡ (cells d.now).caught c.0 r.0 }
{
    let x = wide(c.0);
    let y = wide(r.0);
    flags::bits::flag(d[CAUGHT + (8 * x + y / 8)], y % 8)
}

// The revision at a place of the layout.
pub fn place(d: &[u8], i: usize) -> usize
    requires { (length d.now ≡ lower_bytes) × (i < revisions) }
    ensures { (result ≡ byte (cells d.now).layout i) × (result < 256) }
{
    byte_at(&d[LAYOUT..QUEUE], i)
}

// The number at a place of the queue.
pub fn queued(d: &[u8], i: usize) -> usize
    requires { (length d.now ≡ lower_bytes) × (i < revisions) }
    ensures { (result ≡ byte (cells d.now).queue i) × (result < 256) }
{
    byte_at(&d[QUEUE..OPENED], i)
}

// The revision of the open transaction, or `Table::CLOSED`.
pub fn opened(d: &[u8], c: Client) -> usize
    requires { (length d.now ≡ lower_bytes) × (c.0 < clients) }
    ensures { (result ≡ (cells d.now).opened c.0) × (result < 256) }
{
    byte_at(&d[OPENED..COUNTERS], wide(c.0))
}

// How many revisions are out.
pub fn out(d: &[u8]) -> usize
    requires { length d.now ≡ lower_bytes }
    ensures { (result ≡ (cells d.now).out) × (result < 256) }
{
    byte_at(&d[COUNTERS..NAMES], Table::REVISIONS_OUT)
}

// How many revision numbers were given out.
pub fn given(d: &[u8]) -> usize
    requires { length d.now ≡ lower_bytes }
    ensures { (result ≡ (cells d.now).given) × (result < 256) }
{
    byte_at(&d[COUNTERS..NAMES], Table::NUMBERS_GIVEN)
}

// How many updates were taken.
pub fn updates(d: &[u8]) -> usize
    requires { length d.now ≡ lower_bytes }
    ensures { (result ≡ (cells d.now).updates) × (result < 65536) }
{
    word_at(&d[COUNTERS..NAMES], Table::UPDATES_TAKEN)
}

// Whether the name of r is the lent one, which may be of any length.
pub fn is_named(d: &[u8], r: Revision, name: &[u8]) -> bool
    requires { (length d.now ≡ lower_bytes) × (r.0 < revisions) }
    ensures { result ≡ same_name ((cells d.now).name r.0) name.now }
{
    is_name(&d[NAMES..SINGLE], wide(r.0), name)
}

// The choice given to fresh: whether the day is a single-main day (02, U8).
pub fn single(d: &[u8]) -> bool
    requires { length d.now ≡ lower_bytes }
    ensures { result ≡ (cells d.now).single }
{
    byte_at(&d[SINGLE..SETTLED], 0) == 1
}

// How many of the main revision's own updates are of closed transactions (02, U10).
pub fn settled(d: &[u8]) -> usize
    requires { length d.now ≡ lower_bytes }
    ensures { (result ≡ (cells d.now).settled) × (result < 65536) }
{
    word_at(&d[SETTLED..STARTED], 0)
}

// The boxes ever started, marks not counted, at most 65,535 (02, U14).
pub fn started(d: &[u8]) -> usize
    requires { length d.now ≡ lower_bytes }
    ensures { (result ≡ (cells d.now).started) × (result < 65536) }
{
    word_at(&d[STARTED..KEPT], 0)
}
