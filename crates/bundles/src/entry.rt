// An update as it is sent: kind and bib are numbers of any size, checked when it is taken.

#[derive(Clone, Copy)]
pub struct Entry {
    pub kind: u8,
    pub bib: u16,
    pub v: u32,
}
