// A yield on bytes that are a table: a client's open transaction, if any, is closed. The call, with its board, stands above (crate announcing).
ghost use Rattle.std.specs.Prelude.{true, ◌≡◌, ◌++◌, ◌<◌, length};
ghost use Rattle.cells.specs.Sizes.{clients};
ghost use Rattle.cells.specs.Steps.{close_bytes};
ghost use Rattle.boards.specs.Board.{board_bytes};
ghost use Rattle.table.specs.Halves.{high, is_table, low};
ghost use Rattle.table.specs.Out.{table_bytes};
ghost use Rattle.table.specs.Told.{left};
ghost use Rattle.table.specs.Calls.{yield_out};

use checks::client::check_client;
use events::transactions;
use sizes::numbers::Client;
use sizes::table::Table;
use table::refusal::Refusal;

#[tactic(auto, unfolding(table::specs::Halves::low, table::specs::Halves::high))]
pub fn close(t: &mut [u8], c: Client)
    requires { (length t.old ≡ table_bytes) × (c.0 < clients) }
    ensures { t.new ≡ close_bytes (low t.old) c.0 ++ high t.old }
{
    transactions::close(&mut t[0..Table::LOWER], c);
}

// The call on bytes that are a table, with a board of the right length.
#[tactic(auto, unfolding(table::specs::Calls::yield_out, checks::specs::Answers::client_check))]
pub fn yield_sound(t: &mut [u8], client: u8) -> Result<u32, Refusal>
    requires { (is_table t.old ≡ true) × (length t.old ≡ table_bytes) }
    ensures { left result t.new ≡ yield_out t.old client board_bytes }
{
    let Some(c) = check_client(client) else {
        return Err(Refusal::StrangeClient);
    };
    close(t, c);
    Ok(0)
}
