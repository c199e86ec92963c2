// One line a record, put into a buffer from a place on.
ghost use Rattle.std.specs.Prelude.{◌≡◌, ◌+◌, ◌*◌, ◌≤◌, ◌<◌, length};
ghost use Rattle.boards.specs.Board.{board_bytes};
ghost use Rattle.text.specs.Placed.{placed};
ghost use Rattle.table.specs.Told.{code_told, reading_told};
ghost use Rattle.report.specs.Printed.{line as line_of, lines as lines_of, value_text};

use crate::step::run;
use dayfile::step::step_at;
use table::answer::Reading;
use table::refusal::Refusal;
use text::number::number;
use text::put::put;
use updates::standing::State;

#[tactic(auto, unfolding(crate::specs::Printed::value_text))]
fn value_text(out: &mut [u8], at: usize, state: State, value: u32) -> usize
    requires { at + length (value_text state value) ≤ length out.old }
    ensures { (result ≡ at + length (value_text state value)) × (out.new ≡ placed out.old at (value_text state value)) }
{
    match state {
        State::Struck => put(out, at, b"struck\n"),
        State::Neither | State::Timed => number(out, at, u64::from(value), b'\n'),
    }
}

// At most 20 bytes: 4 digits, 3 and 10, each with a mark behind.
fn line(out: &mut [u8], at: usize, index: u32, code: u8, state: State, value: u32) -> usize
    requires { (index < 10000) × (at + 20 ≤ length out.old) }
    ensures { (result ≤ at + 20) × (result ≡ at + length (line_of index code state value)) × (out.new ≡ placed out.old at (line_of index code state value)) }
{
    let a = number(out, at, u64::from(index), b' ');
    let b = number(out, a, u64::from(code), b' ');
    value_text(out, b, state, value)
}

// A refusal has its number and value 0.
fn answer_line(out: &mut [u8], at: usize, index: u32, a: Result<Reading, Refusal>) -> usize
    requires { (index < 10000) × (at + 20 ≤ length out.old) }
    ensures { (result ≤ at + 20) × (result ≡ at + length (line_of index (code_told a) (reading_told a).state (reading_told a).value)) × (out.new ≡ placed out.old at (line_of index (code_told a) (reading_told a).state (reading_told a).value)) }
{
    match a {
        Ok(r) => line(out, at, index, 0, r.state, r.value),
        Err(e) => line(out, at, index, u8::from(e), State::Neither, 0),
    }
}

// The first n records of f, run on the table t with the board.
pub(crate) fn lines(
    f: &[u8],
    n: u32,
    t: &mut [u8],
    board: &mut [u8],
    out: &mut [u8],
    at: usize,
) -> usize
    requires { (n ≤ 5460) × (at + 20 * n ≤ length out.old) × (length board.old ≡ board_bytes) }
    ensures { (result ≤ at + 20 * n) × (result ≡ at + length (lines_of t.old f.now n)) × (out.new ≡ placed out.old at (lines_of t.old f.now n)) }
{
    let mut end = at;
    for i in 0..n {
        end = answer_line(out, end, i, run(t, board, step_at(f, i)));
    }
    end
}
