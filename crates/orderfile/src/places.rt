// The place of each number of an order, if each stands there once and none is too high.
ghost use Rattle.std.specs.Prelude.{◌≡◌, ℕ, ◌*◌, ◌+◌, ◌<◌, ◌≤◌, get_or, length};
ghost use Rattle.orderfile.specs.File.{numbers_of};
ghost use Rattle.orderfile.specs.Checks.{PlacesOf, place_at};

// Number i of those in b.
#[tactic(auto, using(crate::proofs::Numbers::number_at))]
fn number_at(b: &[u8], i: usize) -> usize
    requires { 2 * i + 2 ≤ length b.now }
    ensures { result ≡ get_or (numbers_of b.now) i 0 }
{
    usize::from(u16::from_le_bytes([b[2 * i], b[2 * i + 1]]))
}

// How many numbers b has.
pub fn count(b: &[u8]) -> usize
    ensures { result ≡ length (numbers_of b.now) }
{
    b.len() / 2
}

// Whether b, which has as many numbers as updates were taken, has each once and no other; then `places` has the place of each, from 1 on. Where it
// has none, 0 stays. It ends at the first number that is too high or stands there twice.
pub fn place_all(b: &[u8], taken: usize, places: &mut [u16]) -> bool
    requires { (length (numbers_of b.now) ≡ taken) × (taken < 65536) × (taken ≤ length places.old) × ((u : ℕ) → place_at places.old u ≡ 0) }
    ensures { PlacesOf taken (numbers_of b.now) places.new result }
{
    for i in 0..taken {
        let n = number_at(b, i);
        if taken <= n {
            return false;
        }
        if places[n] != 0 {
            return false;
        }
        places[n] = (i + 1) as u16;
    }
    true
}
