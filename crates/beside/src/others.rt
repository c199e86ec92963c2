// Of the other three tables: code 1, and the room that they leave on the card.
ghost use Rattle.std.specs.Prelude.{◌≡◌, ◌<◌, length};
ghost use Rattle.card.specs.Log.{larger as largerOf};
ghost use Rattle.card.specs.Room.{beside, most as most_of};
ghost use Rattle.table.specs.Out.{table_bytes};
ghost use Rattle.table.specs.Shared.{count_in};
ghost use Rattle.beside.specs.Three.{three_check};

use table::sound::TableCheck;
use table::{counts, sound};

// "the card for all four holds 8,192 updates. Each table .. has 1,024 assured."
#[derive(Drop)]
pub(crate) struct Card {}

impl Card {
    // Courses are 0 to 3.
    pub const COURSES: u8 = 4;

    pub const UPDATES: usize = 8192;

    pub const ASSURED: usize = 1024;
}

// "the larger of 1,024 and its updates"
fn larger(taken: usize) -> usize
    requires { taken < 65536 }
    ensures { (result ≡ largerOf taken) × (result < 65536) }
{
    taken.max(Card::ASSURED)
}

// What a table has of the card at least.
fn reserved(t: &[u8]) -> usize
    requires { length t.now ≡ table_bytes }
    ensures { (result ≡ largerOf (count_in t.now)) × (result < 65536) }
{
    larger(counts::taken(t))
}

// None where the others leave less than the 1,024, as on no day.
fn most(others: usize) -> usize
    ensures { result ≡ most_of others }
{
    if Card::UPDATES - Card::ASSURED < others {
        return 0;
    }
    Card::UPDATES - others
}

// How many updates a table may have beside the other three.
pub fn most_beside(a: &[u8], b: &[u8], c: &[u8]) -> usize
    requires { (length a.now ≡ table_bytes) × (length b.now ≡ table_bytes) × (length c.now ≡ table_bytes) }
    ensures { result ≡ most_of (beside a.now b.now c.now) }
{
    most(reserved(a) + reserved(b) + reserved(c))
}

pub fn check_three(a: &[u8], b: &[u8], c: &[u8]) -> TableCheck
    ensures { result ≡ three_check a.now b.now c.now }
{
    let TableCheck::Sound = sound::check_table(a) else {
        return TableCheck::Damaged;
    };
    let TableCheck::Sound = sound::check_table(b) else {
        return TableCheck::Damaged;
    };
    sound::check_table(c)
}
