// The four kinds of update, and the bytes that name them: a byte becomes a kind by `try_from` alone.
ghost use Rattle.std.specs.Prelude.{◌≡◌};
ghost use Rattle.updates.specs.Absolute.{absolute};
ghost use Rattle.updates.specs.Kinds.{kind_number, kind_check};

#[derive(Clone, Copy, Debug, PartialEq, Eq)]
pub enum Kind {
    Time,
    Earliest,
    Penalty,
    Strike,
}

// The byte names no kind.
#[derive(Clone, Copy, Debug, PartialEq, Eq)]
pub struct UnknownKind;

// The kind that a byte names; 01 numbers them 1 to 4.
impl TryFrom<u8> for Kind {
    type Error = UnknownKind;

    ghost try_from_gives = { λ byte r. r ≡ kind_check byte };

    #[tactic(auto, unfolding(crate::specs::Kinds::kind_check))]
    fn try_from(byte: u8) -> Result<Self, UnknownKind> {
        match byte {
            1 => Ok(Kind::Time),
            2 => Ok(Kind::Earliest),
            3 => Ok(Kind::Penalty),
            4 => Ok(Kind::Strike),
            _ => Err(UnknownKind),
        }
    }
}

// The byte that names a kind.
impl From<Kind> for u8 {
    ghost from_gives = { λ kind byte. byte ≡ kind_number kind };

    #[tactic(auto, unfolding(crate::specs::Kinds::kind_number))]
    fn from(kind: Kind) -> u8 {
        match kind {
            Kind::Time => 1,
            Kind::Earliest => 2,
            Kind::Penalty => 3,
            Kind::Strike => 4,
        }
    }
}

// Whether the effect is the same whatever stood before, so that no update before this one counts.
#[tactic(auto, unfolding(crate::specs::Absolute::absolute))]
pub fn is_absolute(kind: Kind) -> bool
    ensures { result ≡ absolute kind }
{
    matches!(kind, Kind::Time | Kind::Strike)
}
