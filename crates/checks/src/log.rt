// Code 9: whether the log has room.
ghost use Rattle.std.specs.Prelude.{◌≡◌, length};
ghost use Rattle.cells.specs.Sizes.{lower_bytes};
ghost use Rattle.checks.specs.Answers.{log_check};

use fields::read;
use sizes::table::Table;

#[derive(Drop)]
pub enum LogCheck {
    Room,
    Full,
}

#[tactic(auto, unfolding(crate::specs::Answers::log_check))]
pub fn check_log(d: &[u8]) -> LogCheck
    requires { length d.now ≡ lower_bytes }
    ensures { result ≡ log_check d.now }
{
    if read::updates(d) < Table::UPDATES {
        return LogCheck::Room;
    }
    LogCheck::Full
}
