// The numbers of revisions and of clients, each of a type of its own (01: box and tablet numbers are never taken for one another).
ghost use Rattle.std.specs.Prelude.{◌≡◌, ◌<◌};
ghost use Rattle.sizes.specs.Numbers.{client_of, revision_of};

use crate::table::Table;

// A revision number: 0 to 63. Made by `try_from`, for the main revision by `Revision::main`, and from the cells of a table in range.
#[derive(Clone, Copy, Debug, PartialEq, Eq)]
pub struct Revision(pub u8);

// A client number: 0 to 15. Made only after its range check.
#[derive(Clone, Copy, Debug, PartialEq, Eq)]
pub struct Client(pub u8);

// A number of no revision, or of no client.
#[derive(Clone, Copy, Debug, PartialEq, Eq)]
pub struct OutOfRange;

pub fn wide(x: u8) -> usize
    ensures { (result ≡ x) × (result < 256) }
{
    x as usize
}

impl TryFrom<u8> for Revision {
    type Error = OutOfRange;

    ghost try_from_gives = { λ n r. r ≡ revision_of n };

    #[tactic(auto, unfolding(crate::specs::Numbers::revision_of))]
    fn try_from(n: u8) -> Result<Revision, OutOfRange> {
        if usize::from(n) < Table::REVISIONS {
            Ok(Revision(n))
        } else {
            Err(OutOfRange)
        }
    }
}

impl TryFrom<u8> for Client {
    type Error = OutOfRange;

    ghost try_from_gives = { λ n r. r ≡ client_of n };

    #[tactic(auto, unfolding(crate::specs::Numbers::client_of))]
    fn try_from(n: u8) -> Result<Client, OutOfRange> {
        if usize::from(n) < Table::CLIENTS {
            Ok(Client(n))
        } else {
            Err(OutOfRange)
        }
    }
}

impl Revision {
    // The main revision, which is there from the start.
    pub fn main() -> Revision
        ensures { result.0 ≡ 0 }
    {
        Revision(0)
    }
}
