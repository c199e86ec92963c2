// A row of 64 flags as one number, its first byte lowest. The compiled code keeps a row by value so, and looks at one flag without the row's bytes.
ghost use Rattle.std.specs.Prelude.{◌≡◌, ℕ, ◌<◌};
ghost use Rattle.cells.specs.Flags.{bit, flag_at, row_bytes};

use sizes::table::Table;

pub fn word(row: [u8; Table::FLAGS]) -> u64
    ensures { (y : ℕ) → y < 64 → bit result y ≡ flag_at row y }
{
    u64::from_le_bytes(row)
}

pub fn row(word: u64) -> [u8; Table::FLAGS]
    ensures { result ≡ row_bytes 8 (bit word) }
{
    word.to_le_bytes()
}
