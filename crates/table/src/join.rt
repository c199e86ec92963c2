// The checks of a join, on the lower half: 3, 4, 15, 16, 7 and 11.
ghost use Rattle.std.specs.Prelude.{◌≡◌, length};
ghost use Rattle.cells.specs.Sizes as Lower;
ghost use Rattle.table.specs.Checks.{join_check, JoinIn};

use crate::refusal::Refusal;
use checks::busy::{UseCheck, check_use};
use checks::given::check_given;
use checks::joinable::{JoinableCheck, check_joinable};
use checks::joined::{JoinedCheck, check_joined};
use checks::line::{LineCheck, check_line};
use checks::marked::{MarkedCheck, check_marked};
use sizes::numbers::Revision;

// Checks 3, 4, 15, 16, 7, 11: each of the joiner, then of the joinee; 15 of the joiner alone.
#[tactic(auto, unfolding(crate::specs::Checks::join_check, crate::specs::Found::on_some, checks::specs::Answers::given_check, checks::specs::Answers::joined_check, checks::specs::Answers::line_check, checks::specs::Answers::marked_check, checks::specs::Answers::use_check, checks::specs::Answers::joinable_check))]
pub fn check_join(d: &[u8], joiner: u8, joinee: u8) -> Result<(Revision, Revision), Refusal>
    requires { length d.now ≡ Lower.lower_bytes }
    ensures { (result ≡ join_check d.now joiner joinee) × JoinIn result }
{
    let Some(a) = check_given(d, joiner) else {
        return Err(Refusal::NeverSent);
    };
    let Some(b) = check_given(d, joinee) else {
        return Err(Refusal::NeverSent);
    };
    let JoinedCheck::Out = check_joined(d, a) else {
        return Err(Refusal::Joined);
    };
    let JoinedCheck::Out = check_joined(d, b) else {
        return Err(Refusal::Joined);
    };
    let LineCheck::On = check_line(d, a) else {
        return Err(Refusal::OffTheLine);
    };
    let MarkedCheck::Unmarked = check_marked(d, a) else {
        return Err(Refusal::Marked);
    };
    let MarkedCheck::Unmarked = check_marked(d, b) else {
        return Err(Refusal::Marked);
    };
    let UseCheck::Free = check_use(d, a) else {
        return Err(Refusal::Busy);
    };
    let UseCheck::Free = check_use(d, b) else {
        return Err(Refusal::Busy);
    };
    let JoinableCheck::Joinable = check_joinable(d, a, b) else {
        return Err(Refusal::NotJoinable);
    };
    Ok((a, b))
}
