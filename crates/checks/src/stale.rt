// Code 8: whether the client has caught up with the revision.
ghost use Rattle.std.specs.Prelude.{◌≡◌, ◌<◌, length};
ghost use Rattle.cells.specs.Sizes.{lower_bytes, clients, revisions};
ghost use Rattle.checks.specs.Answers.{stale_check};

use fields::read;
use sizes::numbers::{Client, Revision};

#[derive(Drop)]
pub enum StaleCheck {
    CaughtUp,
    Stale,
}

#[tactic(auto, unfolding(crate::specs::Answers::stale_check))]
pub fn check_stale(d: &[u8], c: Client, r: Revision) -> StaleCheck
    requires { (length d.now ≡ lower_bytes) × (c.0 < clients) × (r.0 < revisions) }
    ensures { result ≡ stale_check d.now c.0 r.0 }
{
    if read::caught(d, c, r) {
        return StaleCheck::CaughtUp;
    }
    StaleCheck::Stale
}
