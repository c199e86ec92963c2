// A step of a day, and the step of a record by its index.
ghost use Rattle.std.specs.Prelude.{◌≡◌};
ghost use Rattle.dayfile.specs.Record.{step_at};

use crate::file::File;
use crate::record::decode;
use buffers::numbers::read;

// Revision: 01's box. Client: 01's tablet. The numbers are as the file has them, of any size.
#[derive(Clone, Copy, Debug, PartialEq, Eq)]
pub enum Step {
    Update {
        client: u8,
        revision: u8,
        kind: u8,
        bib: u16,
        v: u32,
    },
    Query {
        client: u8,
        revision: u8,
        bib: u16,
    },
    Yield(u8),
    Fork(u8),
    Join(u8, u8),
    Unknown,
}

// Where the file has no whole record of that index, the step is unknown (01: strange step).
#[tactic(auto, unfolding(crate::specs::Record::step_at))]
pub fn step_at(f: &[u8], i: u32) -> Step
    ensures { result ≡ step_at f.now i }
{
    if f.len() < File::HEADER {
        return Step::Unknown;
    }
    let at = read(&f[4..8]) + File::RECORD * u64::from(i);
    let end = at + File::RECORD;
    if end > f.len() as u64 {
        return Step::Unknown;
    }
    let from = at as usize;
    let to = end as usize;
    decode(&f[from..to])
}
