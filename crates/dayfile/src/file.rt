// The check of the file: header and length.
ghost use Rattle.std.specs.Prelude.{◌≡◌};
ghost use Rattle.dayfile.specs.File.{file_check};

use buffers::numbers::read;

#[derive(Drop)]
pub struct File;

impl File {
    // 01: "a header of a count and an offset, 4 bytes each"
    pub const HEADER: usize = 8;

    // 01: "the offset under 8" is bad
    pub const FIRST: u64 = 8;

    // 01: "Records are 12 bytes"
    pub const RECORD: u64 = 12;

    // 01: a length "above 65,536" is bad
    pub const LONGEST: usize = 65536;
}

// The count of steps; `None` where the file is bad. The sum is made in 64 bits: no count wraps into a fit.
#[tactic(auto, unfolding(crate::specs::File::file_check))]
pub fn check_file(f: &[u8]) -> Option<u32>
    ensures { result ≡ file_check f.now }
{
    if f.len() < File::HEADER {
        return None;
    }
    if File::LONGEST < f.len() {
        return None;
    }
    let n = read(&f[0..4]);
    let offset = read(&f[4..8]);
    if offset < File::FIRST {
        return None;
    }
    if offset + File::RECORD * n != f.len() as u64 {
        return None;
    }
    Some(n as u32)
}
