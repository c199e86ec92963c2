// The size of the output, and the whole text.
ghost use Rattle.std.specs.Prelude.{◌≡◌, ◌≤◌, length};
ghost use Rattle.text.specs.Placed.{placed};
ghost use Rattle.report.specs.Printed.{day, room, shown};

use crate::lines::lines;
use boards::check::Board;
use dayfile::file::check_file;
use text::number::number;
use text::put::put;

#[derive(Drop)]
pub struct Output;

impl Output {
    // No day is longer: 11 bytes for `steps 5460`, and 5,460 lines of at most 20, a code counted with three digits.
    pub const BYTES: usize = 109211;
}

// The text of a good file: `steps n`, and the lines.
fn put_day(f: &[u8], n: u32, out: &mut [u8]) -> usize
    requires { (n ≤ 5460) × (room ≤ length out.old) }
    ensures { (result ≡ length (day f.now n)) × (out.new ≡ placed out.old 0 (day f.now n)) }
{
    let mut t = io::large_buffer();
    let mut board = [0u8; Board::BYTES];
    let _ = announcing::fresh::fresh(&mut t, &mut board, false);
    let a = put(out, 0, b"steps ");
    let b = number(out, a, u64::from(n), b'\n');
    lines(f, n, &mut t, &mut board, out, b)
}

// What the file prints as, at the start of the buffer; the answer is its length. A buffer that is too short for some day is
// left as it is, and the answer is 0.
pub fn report(f: &[u8], out: &mut [u8]) -> usize
    ensures { (result ≡ length (shown f.now out.old)) × (out.new ≡ placed out.old 0 (shown f.now out.old)) }
{
    if out.len() < Output::BYTES {
        return 0;
    }
    let Some(n) = check_file(f) else {
        return put(out, 0, b"bad file\n");
    };
    put_day(f, n, out)
}
