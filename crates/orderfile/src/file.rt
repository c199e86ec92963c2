// The check of the file: header and length.
ghost use Rattle.std.specs.Prelude.{◌≡◌};
ghost use Rattle.orderfile.specs.Checks.{list_check};

use buffers::numbers::read;

#[derive(Drop)]
pub struct Order;

impl Order {
    // 02, U13: "a header of a count and an offset, 4 bytes each"
    pub const HEADER: usize = 8;

    // "the offset is under 8": bad
    pub const FIRST: u64 = 8;

    // "update numbers of 2 bytes"
    pub const NUMBER: u64 = 2;
}

// Where the numbers begin; `None` where the list is bad. The sum is made in 64 bits: no count wraps into a fit.
#[tactic(auto, unfolding(crate::specs::Checks::list_check, crate::specs::File::is_bad_list))]
pub fn check_list(f: &[u8]) -> Option<usize>
    ensures { result ≡ list_check f.now }
{
    if f.len() < Order::HEADER {
        return None;
    }
    let count = read(&f[0..4]);
    let offset = read(&f[4..8]);
    if offset < Order::FIRST {
        return None;
    }
    if offset + Order::NUMBER * count != f.len() as u64 {
        return None;
    }
    Some(offset as usize)
}
