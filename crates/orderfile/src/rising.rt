// Whether the places of a list's numbers rise.
ghost use Rattle.std.specs.Prelude.{◌≡◌};
ghost use Rattle.orderfile.specs.Test.{rises};
ghost use Rattle.orderfile.specs.Checks.{place_at};

// The place of u, 0 where it has none.
fn place(places: &[u16], u: usize) -> u16
    ensures { result ≡ place_at places.now u }
{
    places.get(u).copied().unwrap_or(0)
}

// Each is above the last one, and the first above 0.
pub fn rise(places: &[u16], list: &[u16]) -> bool
    ensures { result ≡ rises (place_at places.now) 0 list.now }
{
    let mut last: u16 = 0;
    for u in list {
        let p = place(places, usize::from(*u));
        if p <= last {
            return false;
        }
        last = p;
    }
    true
}
