// Code 7: whether the revision is in use, that is, whether some client has an open transaction on it (01: busy).
ghost use Rattle.std.specs.Prelude.{◌≡◌, not, ◌&&◌, ◌<◌, eqb, length};
ghost use Rattle.cells.specs.Sizes.{lower_bytes, clients};
ghost use Rattle.cells.specs.Decode.{cells};
ghost use Rattle.cells.specs.Checks.{busy, busy_by_other};
ghost use Rattle.checks.specs.Answers.{other_use_check, use_check};

use fields::read;
use sizes::numbers::{Client, Revision};
use sizes::table::Table;

// How many clients there are, of the type of a client number: each number below it is a client.
const CLIENTS: u8 = Table::CLIENTS as u8;

#[derive(Drop)]
pub enum UseCheck {
    Free,
    Busy,
}

// Whether x has an open transaction on r.
fn is_on(d: &[u8], x: Client, r: Revision) -> bool
    requires { (length d.now ≡ lower_bytes) × (x.0 < clients) }
    ensures { result ≡ eqb ((cells d.now).opened x.0) r.0 }
{
    read::opened(d, x) == usize::from(r.0)
}

// Whether some client has an open transaction on r.
#[tactic(auto, using(lists::proofs::Sums::any_at, lists::proofs::Sums::any_more), unfolding(lists::specs::Sums::any_below))]
fn is_busy(d: &[u8], r: Revision) -> bool
    requires { length d.now ≡ lower_bytes }
    ensures { result ≡ busy (cells d.now) r.0 }
{
    for x in 0..CLIENTS {
        if is_on(d, Client(x), r) {
            return true;
        }
    }
    false
}

// Whether x is not c and has an open transaction on r.
fn is_other_on(d: &[u8], x: Client, c: Client, r: Revision) -> bool
    requires { (length d.now ≡ lower_bytes) × (x.0 < clients) }
    ensures { result ≡ (not (eqb x.0 c.0) && eqb ((cells d.now).opened x.0) r.0) }
{
    if x == c {
        return false;
    }
    is_on(d, x, r)
}

// Whether a client other than c has an open transaction on r.
#[tactic(auto, using(lists::proofs::Sums::any_at, lists::proofs::Sums::any_more), unfolding(lists::specs::Sums::any_below))]
fn is_busy_by_other(d: &[u8], c: Client, r: Revision) -> bool
    requires { length d.now ≡ lower_bytes }
    ensures { result ≡ busy_by_other (cells d.now) c.0 r.0 }
{
    for x in 0..CLIENTS {
        if is_other_on(d, Client(x), c, r) {
            return true;
        }
    }
    false
}

#[tactic(auto, unfolding(crate::specs::Answers::use_check))]
pub fn check_use(d: &[u8], r: Revision) -> UseCheck
    requires { length d.now ≡ lower_bytes }
    ensures { result ≡ use_check d.now r.0 }
{
    if is_busy(d, r) {
        return UseCheck::Busy;
    }
    UseCheck::Free
}

// For update and query: in use by another client.
#[tactic(auto, unfolding(crate::specs::Answers::other_use_check))]
pub fn check_use_by_other(d: &[u8], c: Client, r: Revision) -> UseCheck
    requires { length d.now ≡ lower_bytes }
    ensures { result ≡ other_use_check d.now c.0 r.0 }
{
    if is_busy_by_other(d, c, r) {
        return UseCheck::Busy;
    }
    UseCheck::Free
}
