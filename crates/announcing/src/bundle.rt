// The call bundle (02, U4): updates of one client on one revision, then its yield. Of a bundle on the main revision the board is shown the whole
// transaction, also what was entered singly before. It is of a table alone, or of one that shares its log (U12).
ghost use Rattle.std.specs.Prelude.{true, ◌≡◌, ◌*◌, ◌<◌, ◌≤◌, length};
ghost use Rattle.boards.specs.Board.{board_bytes};
ghost use Rattle.bundles.specs.Records.{entries_from};
ghost use Rattle.cells.specs.Range.{in_range};
ghost use Rattle.desk.specs.Calls.{Records};
ghost use Rattle.table.specs.Halves.{is_table, low};
ghost use Rattle.table.specs.Out.{table_bytes};
ghost use Rattle.table.specs.Told.{left};
ghost use Rattle.table.specs.Calls.{board_out, bundle_out};
ghost use Rattle.table.specs.Calls.{bundled as bundledOut};
ghost use Rattle.table.specs.Shared.{above, batch_shared, sent_shared};

use boards::check::{BoardCheck, check_board};
use bundles::check::check_bundle;
use bundling::bundle::bundle_sound;
use sizes::table::Table;
use table::board::{bring, settled};
use table::refusal::Refusal;
use table::sound;
use table::sound::TableCheck;

// The call on a table that may have so many updates at most.
#[tactic(auto, unfolding(table::specs::Checks::table_check, table::specs::Halves::is_table))]
pub fn bundle_within(
    t: &mut [u8],
    board: &mut [u8],
    most: usize,
    client: u8,
    revision: u8,
    records: &[u8],
) -> Result<u32, Refusal>
    ensures { (left result t.new ≡ batch_shared (above most) t.old client revision (Records records.now) (length board.old)) × (board.new ≡ board_out t.old t.new board.old) }
{
    let TableCheck::Sound = sound::check_table(t) else {
        return Err(Refusal::NoTable);
    };
    let Some(sent) = check_bundle(records) else {
        return Err(Refusal::WrongBundle);
    };
    let BoardCheck::Sound = check_board(board) else {
        return Err(Refusal::WrongBoard);
    };
    let before = settled(t);
    let answer = bundle_sound(t, most, client, revision, sent);
    bring(t, before, board);
    answer
}

// The call on a table alone.
#[tactic(auto, using(table::proofs::Shared::batch_alone), unfolding(table::specs::Calls::bundle_out))]
pub fn bundle(
    t: &mut [u8],
    board: &mut [u8],
    client: u8,
    revision: u8,
    records: &[u8],
) -> Result<u32, Refusal>
    ensures { (left result t.new ≡ bundle_out t.old client revision records.now (length board.old)) × (board.new ≡ board_out t.old t.new board.old) }
{
    bundle_within(t, board, Table::UPDATES, client, revision, records)
}
