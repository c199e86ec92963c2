// Code 5 of a bib.
ghost use Rattle.std.specs.Prelude.{◌≡◌};
ghost use Rattle.table.specs.Checks.{bib_check};

use sizes::table::Table;

#[derive(Drop)]
pub enum BibCheck {
    Known,
    Unknown,
}

#[tactic(auto, unfolding(crate::specs::Checks::bib_check))]
pub fn check_bib(n: u16) -> BibCheck
    ensures { result ≡ bib_check n }
{
    if n < Table::BIBS {
        BibCheck::Known
    } else {
        BibCheck::Unknown
    }
}
