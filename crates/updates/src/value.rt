// The earlier of two times, and a time with a penalty.
ghost use Rattle.std.specs.Prelude.{◌≡◌};
ghost use Rattle.updates.specs.Effect.{earliest, penalized};

// 0 is no time. The cases stand as on a rule sheet (02, U5).
#[tactic(auto, unfolding(crate::specs::Effect::earliest))]
pub fn earlier(value: u32, v: u32) -> u32
    ensures { result ≡ earliest value v }
{
    match (value, v) {
        // neither
        (0, 0) => 0,
        // only the old
        (_, 0) => value,
        // only the new
        (0, _) => v,
        // both
        _ => { if value < v { value } else { v } }
    }
}

// A penalty belongs to a finish: without a time it has no effect.
#[tactic(auto, unfolding(crate::specs::Effect::penalized))]
pub fn penalty(value: u32, v: u32) -> u32
    ensures { result ≡ penalized value v }
{
    if value == 0 {
        return 0;
    }
    value.wrapping_add(v)
}
