// One step on the table, with a board lent to the steps that take one. The printed day does not show it.
ghost use Rattle.std.specs.Prelude.{◌≡◌, ℕ, List, length};
ghost use Rattle.boards.specs.Board.{board_bytes};
ghost use Rattle.table.specs.Told.{left, left_read};
ghost use Rattle.report.specs.Run.{step_out};

use dayfile::step::Step;
use table::answer::Reading;
use table::refusal::Refusal;
use updates::standing::State;

// A call that is no query has no state.
fn without_state(a: Result<u32, Refusal>) -> Result<Reading, Refusal>
    ensures { (lent : List ℕ) → left_read result lent ≡ left a lent }
{
    a.map(|value| Reading {
        state: State::Neither,
        value,
    })
}

// The program's own refusal: an unknown step (01: strange step) changes nothing.
pub(crate) fn run(t: &mut [u8], board: &mut [u8], step: Step) -> Result<Reading, Refusal>
    requires { length board.old ≡ board_bytes }
    ensures { left_read result t.new ≡ step_out t.old step }
{
    match step {
        Step::Update {
            client,
            revision,
            kind,
            bib,
            v,
        } => without_state(updating::update::update(t, client, revision, kind, bib, v)),
        Step::Query {
            client,
            revision,
            bib,
        } => querying::query::query(t, client, revision, bib),
        Step::Yield(client) => without_state(announcing::yields::yields(t, board, client)),
        Step::Fork(revision) => without_state(forking::fork::fork(t, revision)),
        Step::Join(joiner, joinee) => without_state(announcing::join::join(
            t, board, joiner, joinee,
        )),
        Step::Unknown => Err(Refusal::StrangeStep),
    }
}
