// Code 6: whether the client has an open transaction on another revision.
ghost use Rattle.std.specs.Prelude.{◌≡◌, ◌<◌, length};
ghost use Rattle.cells.specs.Sizes.{lower_bytes, clients};
ghost use Rattle.checks.specs.Answers.{open_check};

use fields::read;
use sizes::numbers::{Client, Revision};
use sizes::table::Table;

#[derive(Drop)]
pub enum OpenCheck {
    Clear,
    Elsewhere,
}

#[tactic(auto, unfolding(crate::specs::Answers::open_check))]
pub fn check_open(d: &[u8], c: Client, r: Revision) -> OpenCheck
    requires { (length d.now ≡ lower_bytes) × (c.0 < clients) }
    ensures { result ≡ open_check d.now c.0 r.0 }
{
    let on = read::opened(d, c);
    if on == Table::CLOSED {
        return OpenCheck::Clear;
    }
    if on == usize::from(r.0) {
        return OpenCheck::Clear;
    }
    OpenCheck::Elsewhere
}
