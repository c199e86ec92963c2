// Eight flags as a byte, the first of them lowest: one flag read, one set, and the flags of two bytes.
ghost use Rattle.std.specs.Prelude.{◌≡◌, true, not, ◌||◌, ◌&&◌, ◌<◌};
ghost use Rattle.lists.specs.Lists.{changed};
ghost use Rattle.cells.specs.Flags.{bit, byte_of};

pub fn flag(b: u8, k: usize) -> bool
    requires { k < 8 }
    ensures { result ≡ bit b k }
{
    (b >> k) % 2 == 1
}

// The flags of b, and flag k.
pub fn set(b: u8, k: usize) -> u8
    requires { k < 8 }
    ensures { result ≡ byte_of (changed (bit b) k true) }
{
    b | (1u8 << k)
}

// The flags of either byte.
pub fn either(a: u8, b: u8) -> u8
    ensures { result ≡ byte_of (λ j. bit a j || bit b j) }
{
    a | b
}

// The flags of a that b has not.
pub fn without(a: u8, b: u8) -> u8
    ensures { result ≡ byte_of (λ j. bit a j && not (bit b j)) }
{
    (a | b) ^ b
}
