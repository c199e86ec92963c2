// A bib's standing (02, U2), and what one update makes of it: the four effects, each total.
ghost use Rattle.std.specs.Prelude.{◌≡◌};
ghost use Rattle.updates.specs.Effect.{effect};

use crate::kind::Kind;
use crate::value;

// Struck, or else a value.
#[derive(Clone, Copy, Debug, PartialEq, Eq)]
pub enum Standing {
    Struck,
    At(u32),
}

// What a query tells of a standing beside its value.
#[derive(Clone, Copy, Debug, PartialEq, Eq)]
pub enum State {
    Neither,
    Timed,
    Struck,
}

// The standing after one update.
#[tactic(auto, unfolding(crate::specs::Effect::effect))]
pub fn apply(kind: Kind, v: u32, standing: Standing) -> Standing
    ensures { result ≡ effect kind v standing }
{
    match (kind, standing) {
        (Kind::Time, _) => Standing::At(v),
        (Kind::Strike, _) => Standing::Struck,
        (_, Standing::Struck) => Standing::Struck,
        (Kind::Earliest, Standing::At(value)) => Standing::At(value::earlier(value, v)),
        (Kind::Penalty, Standing::At(value)) => Standing::At(value::penalty(value, v)),
    }
}
