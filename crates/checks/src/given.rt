// Code 3: a revision number that was given out.
ghost use Rattle.std.specs.Prelude.{◌≡◌, length};
ghost use Rattle.cells.specs.Sizes.{lower_bytes};
ghost use Rattle.checks.specs.Answers.{given_check};

use fields::read;
use sizes::numbers::Revision;
use sizes::table::Table;

#[tactic(auto, unfolding(crate::specs::Answers::given_check, sizes::specs::Numbers::revision_of))]
pub fn check_given(d: &[u8], n: u8) -> Option<Revision>
    requires { length d.now ≡ lower_bytes }
    ensures { result ≡ given_check d.now n }
{
    let Ok(r) = Revision::try_from(n) else {
        return None;
    };
    if read::state(d, r) == Table::STATE_NEVER {
        return None;
    }
    Some(r)
}
