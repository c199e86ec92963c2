// Code 1: the buffer has the length of a table, and is a table.
ghost use Rattle.std.specs.Prelude.{◌≡◌};
ghost use Rattle.table.specs.Checks.{length_check, table_check};

use ranges::range::{RangeCheck, check_range};
use sizes::table::Table;

#[derive(Drop)]
pub enum LengthCheck {
    Right,
    Wrong,
}

#[derive(Drop)]
pub enum TableCheck {
    Sound,
    Damaged,
}

#[tactic(auto, unfolding(crate::specs::Checks::length_check))]
pub fn check_length(t: &[u8]) -> LengthCheck
    ensures { result ≡ length_check t.now }
{
    if t.len() == Table::BYTES {
        return LengthCheck::Right;
    }
    LengthCheck::Wrong
}

#[tactic(auto, unfolding(crate::specs::Checks::table_check, crate::specs::Checks::length_check, crate::specs::Halves::is_table))]
pub fn check_table(t: &[u8]) -> TableCheck
    ensures { result ≡ table_check t.now }
{
    let LengthCheck::Right = check_length(t) else {
        return TableCheck::Damaged;
    };
    let RangeCheck::Sound = check_range(&t[0..Table::LOWER]) else {
        return TableCheck::Damaged;
    };
    TableCheck::Sound
}
