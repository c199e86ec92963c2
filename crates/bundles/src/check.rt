// The check of a bundle's bytes: its records, or that they are no bundle.
ghost use Rattle.std.specs.Prelude.{◌≡◌, ◌*◌, true, false, length, MatchOption};
ghost use Rattle.bundles.specs.Records.{is_wrong};
ghost use Rattle.bundles.specs.Packed.{rows};

use crate::sizes::{Bundle, Record};

// The records that the bytes are; `None` where they are no bundle.
#[tactic(auto, unfolding(crate::specs::Records::is_wrong))]
pub fn check_bundle(b: &[u8]) -> Option<&[[u8; Record::BYTES]]>
    ensures { MatchOption result (is_wrong b.now ≡ true) (λ r. (is_wrong b.now ≡ false) × (r.now ≡ rows b.now)) }
{
    let (records, rest) = b.as_chunks();
    if !rest.is_empty() || records.is_empty() || Bundle::MOST < records.len() {
        return None;
    }
    Some(records)
}
