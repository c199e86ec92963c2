// The sizes of a bundle and of its records: 02, U4.

#[derive(Drop)]
pub struct Record;

impl Record {
    // "12-byte records"
    pub const BYTES: usize = 12;
}

#[derive(Drop)]
pub struct Bundle;

impl Bundle {
    // "Accept 1 to 64 updates"
    pub const MOST: usize = 64;

    // The records of 64 updates.
    pub const BYTES: usize = 768;
}
