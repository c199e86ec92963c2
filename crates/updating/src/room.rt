// Whether a log has room for one more update: 9 with 4,096 at most, 20 (02, U12) with what the other courses leave.
ghost use Rattle.std.specs.Prelude.{◌≡◌};
ghost use Rattle.updating.specs.Checks.{room_check};

use checks::log::LogCheck;

#[tactic(auto, unfolding(crate::specs::Checks::room_check))]
pub fn check_room(taken: usize, most: usize) -> LogCheck
    ensures { result ≡ room_check taken most }
{
    if taken < most {
        return LogCheck::Room;
    }
    LogCheck::Full
}
