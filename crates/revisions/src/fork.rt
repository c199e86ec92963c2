// A revision forks another, which is out from then on and inherits what the first one sees.
ghost use Rattle.std.specs.Prelude.{◌≡◌, cond, true, ◌<◌, ◌≤◌, suc, ltb, length};
ghost use Rattle.cells.specs.Sizes.{lower_bytes, revisions};
ghost use Rattle.cells.specs.Parts.{glue, split};
ghost use Rattle.cells.specs.Range.{in_range};
ghost use Rattle.cells.specs.Steps.{branch_parts, fork_bytes};
ghost use Rattle.revisions.specs.Pieces.{number_parts, start_parts};

use crate::inherit;
use fields::read;
use sizes::numbers::Revision;
use sizes::table::Table;
use stores::write;

// The flags, the child's state and place, and the count of those out.
fn start(d: &mut [u8], parent: Revision, child: Revision, out: usize)
    requires { (length d.old ≡ lower_bytes) × (parent.0 < revisions) × (child.0 < revisions) × (out < 256) }
    ensures { d.new ≡ glue (start_parts (split d.old) parent.0 child.0 out) }
{
    write::fork_seen(d, parent, child);
    write::fork_caught(d, parent, child);
    write::state(d, child, Table::STATE_OUT);
    write::enter(d, parent, child);
    write::out(d, out);
}

// The number given is one more used, or, where all are, it leaves the queue.
fn use_number(d: &mut [u8], given: usize)
    requires { (length d.old ≡ lower_bytes) × (given ≤ revisions) }
    ensures { d.new ≡ glue (number_parts (split d.old) given) }
{
    if given < Table::REVISIONS {
        write::given(d, given + 1);
        return;
    }
    write::unqueued(d);
}

// The parent forks the child, a number that is not the main revision's; a mark too.
pub fn branch(d: &mut [u8], parent: Revision, child: Revision)
    requires { (length d.old ≡ lower_bytes) × (in_range d.old ≡ true) × (parent.0 < revisions) × (0 < child.0) × (child.0 < revisions) }
    ensures { d.new ≡ glue (branch_parts (split d.old) parent.0 child.0) }
{
    let out = read::out(d) + 1;
    let given = read::given(d);
    inherit::inherit(d, parent, child);
    start(d, parent, child, out);
    use_number(d, given);
}

// One box more than were started (02, U14): the count stops at its limit.
fn one_more(started: usize) -> usize
    requires { started < 65536 }
    ensures { (result ≡ cond (ltb started 65535) (suc started) started) × (result < 65536) }
{
    (started + 1).min(Table::STARTED_MOST)
}

// The same, and a box is started.
pub fn fork(d: &mut [u8], parent: Revision, child: Revision)
    requires { (length d.old ≡ lower_bytes) × (in_range d.old ≡ true) × (parent.0 < revisions) × (0 < child.0) × (child.0 < revisions) }
    ensures { d.new ≡ fork_bytes d.old parent.0 child.0 }
{
    let started = one_more(read::started(d));
    branch(d, parent, child);
    write::started(d, started);
}
