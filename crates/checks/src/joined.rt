// Code 4: whether the revision is out, or joined (01: handed in).
ghost use Rattle.std.specs.Prelude.{◌≡◌, ◌<◌, length};
ghost use Rattle.cells.specs.Sizes.{lower_bytes, revisions};
ghost use Rattle.checks.specs.Answers.{joined_check};

use fields::read;
use sizes::numbers::Revision;
use sizes::table::Table;

#[derive(Drop)]
pub enum JoinedCheck {
    Out,
    Joined,
}

#[tactic(auto, unfolding(crate::specs::Answers::joined_check))]
pub fn check_joined(d: &[u8], r: Revision) -> JoinedCheck
    requires { (length d.now ≡ lower_bytes) × (r.0 < revisions) }
    ensures { result ≡ joined_check d.now r.0 }
{
    if read::state(d, r) == Table::STATE_JOINED {
        return JoinedCheck::Joined;
    }
    JoinedCheck::Out
}
