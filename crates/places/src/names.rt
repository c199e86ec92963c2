// Names of four bytes, in a part.
ghost use Rattle.std.specs.Prelude.{◌≡◌, ◌+◌, ◌*◌, ◌<◌, length};
ghost use Rattle.lists.specs.Names.{same_name};
ghost use Rattle.cells.specs.Words.{name_in, put_name};

use sizes::table::Table;

// Whether name r is the lent one, which may be of any length.
pub fn is_name(t: &[u8], r: usize, name: &[u8]) -> bool
    requires { 4 * r + 3 < length t.now }
    ensures { result ≡ same_name (name_in t.now r) name.now }
{
    let [a, b, c, d] = name else {
        return false;
    };
    let at = Table::NAME * r;
    (t[at] == *a) & ((t[at + 1] == *b) & ((t[at + 2] == *c) & (t[at + 3] == *d)))
}

pub fn put_name(t: &mut [u8], r: usize, name: &[u8])
    requires { (4 * r + 3 < length t.old) × (length name.now ≡ 4) }
    ensures { t.new ≡ put_name t.old r name.now }
{
    let [a, b, c, d] = name else {
        return;
    };
    let at = Table::NAME * r;
    t[at..at + Table::NAME].copy_from_slice(&[*a, *b, *c, *d]);
}
