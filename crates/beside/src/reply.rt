// What a call answers, in numbers as C has them: 01's code, 0 if taken, and all that the call answers with. Every export packs one.
ghost use Rattle.std.specs.Prelude.{◌≡◌};
ghost use Rattle.beside.specs.Replies.{of_answer, of_level, of_prospect, of_reading};
ghost use Rattle.table.specs.Told.{answer_told, code_of, level_told, prospect_told, verdict_told};
ghost use Rattle.updates.specs.declared.standing.State.TheVariants.{Neither};

use table::answer::{Level, Prospect, Reading};
use table::refusal::Refusal;
use updates::standing::State;

#[derive(Clone, Copy, Debug, PartialEq, Eq)]
pub struct Reply {
    pub code: u8,
    pub state: State,
    pub value: u32,
    pub total: u16,
    pub gain: u16,
}

// Of a call that is taken and answers with a number.
fn plain(value: u32) -> Reply
    ensures { result ≡ record { code = 0; state = Neither; value = value; total = 0; gain = 0 } }
{
    Reply {
        code: 0,
        state: State::Neither,
        value,
        total: 0,
        gain: 0,
    }
}

// A refusal gives value 0, and state neither.
impl From<Refusal> for Reply {
    ghost from_gives = { λ e r. r ≡ record { code = code_of e; state = Neither; value = 0; total = 0; gain = 0 } };

    fn from(refusal: Refusal) -> Reply {
        Reply {
            code: u8::from(refusal),
            state: State::Neither,
            value: 0,
            total: 0,
            gain: 0,
        }
    }
}

impl From<Result<u32, Refusal>> for Reply {
    ghost from_gives = { λ a r. r ≡ of_answer (answer_told a) };

    fn from(a: Result<u32, Refusal>) -> Reply {
        match a {
            Ok(value) => plain(value),
            Err(refusal) => Reply::from(refusal),
        }
    }
}

// Of a verify: 1 for yes, 0 for no.
impl From<Result<bool, Refusal>> for Reply {
    ghost from_gives = { λ a r. r ≡ of_answer (verdict_told a) };

    fn from(a: Result<bool, Refusal>) -> Reply {
        match a {
            Ok(agrees) => plain(if agrees { 1 } else { 0 }),
            Err(refusal) => Reply::from(refusal),
        }
    }
}

impl From<Result<Reading, Refusal>> for Reply {
    ghost from_gives = { λ a r. r ≡ of_reading a };

    fn from(a: Result<Reading, Refusal>) -> Reply {
        match a {
            Ok(reading) => Reply {
                code: 0,
                state: reading.state,
                value: reading.value,
                total: 0,
                gain: 0,
            },
            Err(refusal) => Reply::from(refusal),
        }
    }
}

impl From<Result<Level, Refusal>> for Reply {
    ghost from_gives = { λ a r. r ≡ of_level (level_told a) };

    fn from(a: Result<Level, Refusal>) -> Reply {
        match a {
            Ok(level) => Reply {
                code: 0,
                state: State::Neither,
                value: u32::from(level.own),
                total: level.total,
                gain: 0,
            },
            Err(refusal) => Reply::from(refusal),
        }
    }
}

impl From<Result<Prospect, Refusal>> for Reply {
    ghost from_gives = { λ a r. r ≡ of_prospect (prospect_told a) };

    fn from(a: Result<Prospect, Refusal>) -> Reply {
        match a {
            Ok(prospect) => Reply {
                code: 0,
                state: prospect.state,
                value: prospect.value,
                total: 0,
                gain: prospect.gain,
            },
            Err(refusal) => Reply::from(refusal),
        }
    }
}

// Code 1: another number than 0 to 3, or a buffer that is no table.
pub fn no_course() -> Reply
    ensures { result ≡ of_answer (record { code = 1; value = 0 }) }
{
    Reply::from(Refusal::NoTable)
}
