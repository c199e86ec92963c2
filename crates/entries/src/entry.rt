// An update as it was entered.
use updates::kind::Kind;

#[derive(Clone, Copy)]
pub struct Entry {
    pub kind: Kind,
    pub client: u8,
    pub bib: u16,
    pub v: u32,
}
