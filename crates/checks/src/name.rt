// Code 17 (02, U9): whether a name may be given to a mark: four letters, and not in use.
ghost use Rattle.std.specs.Prelude.{◌&&◌, ◌≡◌, ltb, length};
ghost use Rattle.lists.specs.Names.{four_letters};
ghost use Rattle.cells.specs.Sizes.{lower_bytes};
ghost use Rattle.checks.specs.Answers.{name_check};

use crate::bearer::check_bearer;
use sizes::table::Table;

// The letters A and Z.
const FIRST: u8 = 65;

const LAST: u8 = 90;

#[derive(Drop)]
pub enum NameCheck {
    Fit,
    Bad,
}

fn is_letter(b: u8) -> bool
    ensures { result ≡ (ltb 64 b && ltb b 91) }
{
    (FIRST <= b) & (b <= LAST)
}

// Whether the name, which may be of any length, is four letters.
#[tactic(auto, unfolding(lists::specs::Names::four_letters))]
fn is_four_letters(name: &[u8]) -> bool
    ensures { result ≡ four_letters name.now }
{
    if name.len() != Table::NAME {
        return false;
    }
    is_letter(name[0]) & (is_letter(name[1]) & (is_letter(name[2]) & is_letter(name[3])))
}

#[tactic(auto, unfolding(crate::specs::Answers::name_check, crate::specs::Answers::bearer_check))]
pub fn check_name(d: &[u8], name: &[u8]) -> NameCheck
    requires { length d.now ≡ lower_bytes }
    ensures { result ≡ name_check d.now name.now }
{
    if !is_four_letters(name) {
        return NameCheck::Bad;
    }
    let None = check_bearer(d, name) else {
        return NameCheck::Bad;
    };
    NameCheck::Fit
}
