// Code 16 (02, U9): whether the revision is a mark, which is not written, queried or joined.
ghost use Rattle.std.specs.Prelude.{◌≡◌, ◌<◌, length};
ghost use Rattle.cells.specs.Sizes.{lower_bytes, revisions};
ghost use Rattle.checks.specs.Answers.{marked_check};

use fields::read;
use sizes::numbers::Revision;
use sizes::table::Table;

#[derive(Drop)]
pub enum MarkedCheck {
    Unmarked,
    Marked,
}

#[tactic(auto, unfolding(crate::specs::Answers::marked_check))]
pub fn check_marked(d: &[u8], r: Revision) -> MarkedCheck
    requires { (length d.now ≡ lower_bytes) × (r.0 < revisions) }
    ensures { result ≡ marked_check d.now r.0 }
{
    if read::state(d, r) == Table::STATE_MARKED {
        return MarkedCheck::Marked;
    }
    MarkedCheck::Unmarked
}
