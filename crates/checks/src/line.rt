// Code 15 (02, U8): whether a fork of r, or a join into it, is off the line of a single-main day; and whether a mark is (U9).
ghost use Rattle.std.specs.Prelude.{◌≡◌, length};
ghost use Rattle.cells.specs.Sizes.{lower_bytes};
ghost use Rattle.checks.specs.Answers.{line_check, mark_line_check};

use fields::read;
use sizes::numbers::Revision;

#[derive(Drop)]
pub enum LineCheck {
    On,
    Off,
}

// For a mark: "Single-main days have no marks".
#[tactic(auto, unfolding(crate::specs::Answers::mark_line_check))]
pub fn check_line_of_mark(d: &[u8]) -> LineCheck
    requires { length d.now ≡ lower_bytes }
    ensures { result ≡ mark_line_check d.now }
{
    if read::single(d) {
        return LineCheck::Off;
    }
    LineCheck::On
}

#[tactic(auto, unfolding(crate::specs::Answers::line_check, crate::specs::Answers::mark_line_check))]
pub fn check_line(d: &[u8], r: Revision) -> LineCheck
    requires { length d.now ≡ lower_bytes }
    ensures { result ≡ line_check d.now r.0 }
{
    if r.0 == 0 {
        return LineCheck::On;
    }
    check_line_of_mark(d)
}
