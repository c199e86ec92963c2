// A round: boxes are sent off and written on, and late ones are handed in.
use crate::steps::{enters, forks, joins, looks};
use crate::tally::Tally;

// The boxes that a round leaves out: one from the main revision, and one from that unless it was handed in.
#[derive(Clone, Copy, Debug)]
pub struct Sent {
    pub sender: u8,
    pub nested: Option<u8>,
}

// A client writes on the innermost box, and another looks at the main revision.
fn write(t: &mut [u8], board: &mut [u8], i: u32, revision: u8, tally: &mut Tally) {
    enters(t, board, (i % 16) as u8, revision, i, tally);
    looks(t, board, ((i % 16 + 8) % 16) as u8, i, tally);
}

// The innermost of three boxes, each from the one before, is handed in at once; every third round the middle one too.
pub fn send(t: &mut [u8], board: &mut [u8], i: u32, tally: &mut Tally) -> Sent {
    let sender = forks(t, 0, tally);
    let middle = forks(t, sender, tally);
    let inner = forks(t, middle, tally);
    write(t, board, i, inner, tally);
    joins(t, board, middle, inner, tally);
    let mut nested = Some(middle);
    if i % 3 == 0 {
        joins(t, board, sender, middle, tally);
        nested = None;
    }
    Sent { sender, nested }
}

// The sender comes in before the box that it sent.
pub fn receive(t: &mut [u8], board: &mut [u8], late: Sent, tally: &mut Tally) {
    joins(t, board, 0, late.sender, tally);
    if let Some(nested) = late.nested {
        joins(t, board, 0, nested, tally);
    }
}
