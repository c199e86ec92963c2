// A row of 4,096 flags, by value: its 512 bytes put into the rows.
ghost use Rattle.std.specs.Prelude.{◌≡◌, ◌<◌, length};
ghost use Rattle.cells.specs.Flags.{flag_at, put_row, row_bytes};

use sizes::table::Table;

// Row x of the rows replaced.
pub fn put(t: &mut [u8], x: usize, row: [u8; Table::ROW])
    requires { (length t.old ≡ 32256) × (x < 63) }
    ensures { t.new ≡ put_row 512 t.old x (flag_at row) }
{
    let at = Table::ROW * x;
    t[at..at + Table::ROW].copy_from_slice(&row);
}
