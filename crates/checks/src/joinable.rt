// Code 11: whether the joinee may be joined.
ghost use Rattle.std.specs.Prelude.{◌≡◌, ◌<◌, length};
ghost use Rattle.cells.specs.Sizes.{lower_bytes, revisions};
ghost use Rattle.checks.specs.Answers.{joinable_check};

use fields::read;
use sizes::numbers::Revision;

#[derive(Drop)]
pub enum JoinableCheck {
    Joinable,
    Not,
}

#[tactic(auto, unfolding(crate::specs::Answers::joinable_check))]
pub fn check_joinable(d: &[u8], a: Revision, b: Revision) -> JoinableCheck
    requires { (length d.now ≡ lower_bytes) × (a.0 < revisions) × (b.0 < revisions) }
    ensures { result ≡ joinable_check d.now a.0 b.0 }
{
    if b.0 == 0 {
        return JoinableCheck::Not;
    }
    if a == b {
        return JoinableCheck::Not;
    }
    if read::seen(d, a, b) {
        return JoinableCheck::Joinable;
    }
    JoinableCheck::Not
}
