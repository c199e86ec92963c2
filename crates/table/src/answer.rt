// What a call that is taken answers with, where it is more than a number.
use updates::standing::State;

// Of a query: a bib's state and value.
#[derive(Clone, Copy, Debug, PartialEq, Eq)]
pub struct Reading {
    pub state: State,
    pub value: u32,
}

// Of a fill: the revision's own updates, and those taken by the whole table.
#[derive(Clone, Copy, Debug, PartialEq, Eq)]
pub struct Level {
    pub own: u16,
    pub total: u16,
}

// Of a preview: how the bib will stand at the joiner, and the updates that the joiner will gain.
#[derive(Clone, Copy, Debug, PartialEq, Eq)]
pub struct Prospect {
    pub state: State,
    pub value: u32,
    pub gain: u16,
}
