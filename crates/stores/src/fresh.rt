// The flags of a fresh day: who has caught up with what.
ghost use Rattle.std.specs.Prelude.{◌≡◌, true, length};
ghost use Rattle.cells.specs.Sizes.{clients, lower_bytes};
ghost use Rattle.cells.specs.Parts.{caught_part, wrote};
ghost use Rattle.cells.specs.Flags.{pack};

use places::parts::{CAUGHT, STATE};
use sizes::table::Table;

// Every caught-up flag.
pub fn caught(d: &mut [u8])
    requires { length d.old ≡ lower_bytes }
    ensures { d.new ≡ wrote d.old caught_part (pack clients (λ c r. true)) }
{
    flags::rows::store16(&mut d[CAUGHT..STATE], Table::fresh_caught());
}
