// Code 10: the next revision number, if one is left.
ghost use Rattle.std.specs.Prelude.{◌≡◌, length};
ghost use Rattle.cells.specs.Sizes.{lower_bytes};
ghost use Rattle.cells.specs.Cells.{next_number};
ghost use Rattle.cells.specs.Decode.{cells};
ghost use Rattle.checks.specs.Answers.{next_check};

use fields::read;
use sizes::numbers::Revision;
use sizes::table::Table;

// A number never used while there is one, else the number joined longest ago. On a table in range it is 1 to 63.
pub fn next(d: &[u8]) -> Revision
    requires { length d.now ≡ lower_bytes }
    ensures { result ≡ record { 0 = next_number (cells d.now) } }
{
    let given = read::given(d);
    if given < Table::REVISIONS {
        return Revision(given as u8);
    }
    Revision(read::queued(d, 0) as u8)
}

#[tactic(auto, unfolding(crate::specs::Answers::next_check))]
pub fn check_next(d: &[u8]) -> Option<Revision>
    requires { length d.now ≡ lower_bytes }
    ensures { result ≡ next_check d.now }
{
    if Table::REVISIONS <= read::out(d) {
        return None;
    }
    Some(next(d))
}
