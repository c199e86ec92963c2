// A new day, whatever the bytes were. The call fresh, with its board, stands above.
ghost use Rattle.std.specs.Prelude.{◌≡◌, ◌++◌, length, replicate};
ghost use Rattle.cells.specs.Steps.{fresh_bytes};
ghost use Rattle.entries.specs.Sizes as Upper;
ghost use Rattle.table.specs.Out.{table_bytes};

use sizes::table::Table;

// The revisions of a new day, and no entries. `single` is the choice of a single-main day (02, U8).
pub fn start(t: &mut [u8], single: bool)
    requires { length t.old ≡ table_bytes }
    ensures { t.new ≡ fresh_bytes single ++ replicate Upper.entry_bytes 0 }
{
    revisions::fresh::fresh(&mut t[0..Table::LOWER], single);
    buffers::clear::clear(&mut t[Table::LOWER..Table::BYTES]);
}
