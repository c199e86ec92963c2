// Rows of 64 flags, eight bytes each: loaded from bytes and stored. Row by row, so that a row is moved as one word.
ghost use Rattle.std.specs.Prelude.{◌≡◌, ◌+◌, ◌*◌, ◌/◌, ◌%◌, ◌<◌, ◌≤◌, length};
ghost use Rattle.cells.specs.Sizes.{revisions};
ghost use Rattle.cells.specs.Words.{byte};
ghost use Rattle.cells.specs.Flags.{bit, flag_at, flag_in, row_bytes, put_row, pack, rows, flag_of};

use sizes::table::Table;

// Rows worked on at a time: the clients', or a quarter of the revisions'. More at a time are not kept in registers.
pub const BLOCK: usize = 16;

// Row x.
pub fn load_row(t: &[u8], x: usize) -> [u8; Table::FLAGS]
    requires { (x < revisions) × (8 * x + 8 ≤ length t.now) }
    ensures { result ≡ row_bytes 8 (λ y. bit (byte t.now (8 * x + y / 8)) (y % 8)) }
{
    let at = Table::FLAGS * x;
    let mut row = [0; Table::FLAGS];
    row.copy_from_slice(&t[at..at + Table::FLAGS]);
    row
}

// Sixteen rows.
pub fn load16(t: &[u8]) -> [[u8; Table::FLAGS]; BLOCK]
    requires { length t.now ≡ 128 }
    ensures { result ≡ rows 16 (flag_in 8 16 t.now) }
{
    let mut s = [[0; Table::FLAGS]; BLOCK];
    for x in 0..BLOCK {
        s[x] = load_row(t, x);
    }
    s
}

// Row x replaced.
pub fn store_row(t: &mut [u8], x: usize, row: [u8; Table::FLAGS])
    requires { (x < revisions) × (8 * x + 8 ≤ length t.old) }
    ensures { t.new ≡ put_row 8 t.old x (flag_at row) }
{
    let at = Table::FLAGS * x;
    t[at..at + Table::FLAGS].copy_from_slice(&row);
}

// Sixteen rows replaced.
pub fn store16(t: &mut [u8], s: [[u8; Table::FLAGS]; BLOCK])
    requires { length t.old ≡ 128 }
    ensures { t.new ≡ pack 16 (flag_of s) }
{
    for x in 0..BLOCK {
        let row = s[x];
        store_row(t, x, row);
    }
}
