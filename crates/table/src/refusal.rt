// Why a call is refused: 01's table of codes, and the codes of 02.
ghost use Rattle.std.specs.Prelude.{◌≡◌};
ghost use Rattle.table.specs.Told.{code_of};

// In the order of their numbers.
#[derive(Clone, Copy, Debug, PartialEq, Eq)]
pub enum Refusal {
    NoTable,
    // 01: strange tablet
    StrangeClient,
    NeverSent,
    // 01: handed in
    Joined,
    BadEntry,
    // 01: other box open
    OpenElsewhere,
    // 01: in use
    Busy,
    NotCaughtUp,
    LogFull,
    // 01: no box left
    NoneLeft,
    NotJoinable,
    SheetShort,
    // given by the program alone
    StrangeStep,
    WrongBundle,
    OffTheLine,
    // 02: marked box
    Marked,
    BadName,
    NoSuchMark,
    WrongBoard,
    // 02: shared log full
    CardFull,
    BadList,
}

// The refusal's number.
impl From<Refusal> for u8 {
    ghost from_gives = { λ r n. n ≡ code_of r };

    fn from(refusal: Refusal) -> u8 {
        match refusal {
            Refusal::NoTable => 1,
            Refusal::StrangeClient => 2,
            Refusal::NeverSent => 3,
            Refusal::Joined => 4,
            Refusal::BadEntry => 5,
            Refusal::OpenElsewhere => 6,
            Refusal::Busy => 7,
            Refusal::NotCaughtUp => 8,
            Refusal::LogFull => 9,
            Refusal::NoneLeft => 10,
            Refusal::NotJoinable => 11,
            Refusal::SheetShort => 12,
            Refusal::StrangeStep => 13,
            Refusal::WrongBundle => 14,
            Refusal::OffTheLine => 15,
            Refusal::Marked => 16,
            Refusal::BadName => 17,
            Refusal::NoSuchMark => 18,
            Refusal::WrongBoard => 19,
            Refusal::CardFull => 20,
            Refusal::BadList => 21,
        }
    }
}
