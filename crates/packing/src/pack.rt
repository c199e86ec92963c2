// A reply in one number: the value in the lower 32 bits, then the code, the state and the gain (specs/Packed.antt).
ghost use Rattle.std.specs.Prelude.{[], ◌≡◌, ◌≤◌};
ghost use Rattle.beside.specs.Replies.{replied};
ghost use Rattle.packing.specs.Packed.{packed_reply, state_number};

use beside::reply::Reply;
use updates::standing::State;

fn state_number(state: State) -> u64
    ensures { (result ≡ state_number state) × (result ≤ 2) }
{
    match state {
        State::Neither => 0,
        State::Timed => 1,
        State::Struck => 2,
    }
}

// A fill's total in bits 16 to 31, the code from bit 32, the state from bit 40, a preview's gain from bit 48.
pub fn pack_reply(a: Reply) -> u64
    ensures { result ≡ packed_reply (replied a []) }
{
    u64::from(a.gain) * 281474976710656
        + (state_number(a.state) * 1099511627776
            + (u64::from(a.code) * 4294967296 + (u64::from(a.total) * 65536 + u64::from(a.value))))
}
