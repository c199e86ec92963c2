// Checks 3, 4 and 7 of a revision that must not be busy: for list.
ghost use Rattle.std.specs.Prelude.{◌≡◌, length};
ghost use Rattle.cells.specs.Sizes as Lower;
ghost use Rattle.table.specs.Checks.{idle_check};

use crate::refusal::Refusal;
use checks::busy::{UseCheck, check_use};
use checks::given::check_given;
use checks::joined::{JoinedCheck, check_joined};
use sizes::numbers::Revision;

#[tactic(auto, unfolding(crate::specs::Checks::idle_check, crate::specs::Found::on_some, checks::specs::Answers::given_check, checks::specs::Answers::joined_check, checks::specs::Answers::use_check))]
pub fn check_idle(d: &[u8], n: u8) -> Result<Revision, Refusal>
    requires { length d.now ≡ Lower.lower_bytes }
    ensures { result ≡ idle_check d.now n }
{
    let Some(r) = check_given(d, n) else {
        return Err(Refusal::NeverSent);
    };
    let JoinedCheck::Out = check_joined(d, r) else {
        return Err(Refusal::Joined);
    };
    let UseCheck::Free = check_use(d, r) else {
        return Err(Refusal::Busy);
    };
    Ok(r)
}
