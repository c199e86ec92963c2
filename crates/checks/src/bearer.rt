// Code 18 (02, U9): the mark that bears a name, if there is one.
ghost use Rattle.std.specs.Prelude.{◌≡◌, ◌<◌, length};
ghost use Rattle.cells.specs.Sizes.{lower_bytes, revisions};
ghost use Rattle.cells.specs.Decode.{cells};
ghost use Rattle.cells.specs.Checks.{bears};
ghost use Rattle.checks.specs.Answers.{bearer_check};

use fields::read;
use sizes::numbers::Revision;
use sizes::table::Table;

// One more than the highest number, of the type of a revision number.
const REVISIONS: u8 = Table::REVISIONS as u8;

// Whether r is a mark that bears the name.
fn bears(d: &[u8], name: &[u8], r: Revision) -> bool
    requires { (length d.now ≡ lower_bytes) × (r.0 < revisions) }
    ensures { result ≡ bears (cells d.now) name.now r.0 }
{
    (read::state(d, r) == Table::STATE_MARKED) & read::is_named(d, r, name)
}

// Names are sought from the highest number down to 1: the main revision is no mark.
pub fn check_bearer(d: &[u8], name: &[u8]) -> Option<Revision>
    requires { length d.now ≡ lower_bytes }
    ensures { result ≡ bearer_check d.now name.now }
{
    for n in (1..REVISIONS).rev() {
        let r = Revision(n);
        if bears(d, name, r) {
            return Some(r);
        }
    }
    None
}
