// A revision's row of 4,096 inherited flags, by value: its 512 bytes, loaded from the cells.
ghost use Rattle.std.specs.Prelude.{◌≡◌, ◌+◌, ◌*◌, ◌/◌, ◌%◌, ◌<◌, length};
ghost use Rattle.cells.specs.Sizes.{lower_bytes, revisions};
ghost use Rattle.cells.specs.Words.{byte};
ghost use Rattle.cells.specs.Flags.{bit, row_bytes};
ghost use Rattle.cells.specs.Cells.{flagged};
ghost use Rattle.cells.specs.Decode.{cells};

use crate::read;
use sizes::numbers::{Revision, wide};
use sizes::table::Table;

// Row x of the rows.
fn copy(d: &[u8], x: usize) -> [u8; Table::ROW]
    requires { (length d.now ≡ lower_bytes) × (x < 63) }
    ensures { result ≡ row_bytes 512 (λ u. bit (byte d.now (512 * x + u / 8)) (u % 8)) }
{
    let at = Table::ROW * x;
    let mut row = [0; Table::ROW];
    row.copy_from_slice(&d[at..at + Table::ROW]);
    row
}

// What r, which is not the main revision, inherited otherwise than by count.
pub fn load(d: &[u8], r: Revision) -> [u8; Table::ROW]
    requires { (length d.now ≡ lower_bytes) × (0 < r.0) × (r.0 < revisions) }
    ensures { result ≡ row_bytes 512 (flagged (cells d.now) r.0) }
{
    let x = wide(r.0) - 1;
    if read::used(d, r) {
        return copy(d, x);
    }
    [0; Table::ROW]
}
