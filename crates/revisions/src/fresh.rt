// A new day: the main revision is out, and nothing has happened.
ghost use Rattle.std.specs.Prelude.{cond, [], ◌∷◌, ◌≡◌, length};
ghost use Rattle.cells.specs.Sizes.{lower_bytes};
ghost use Rattle.cells.specs.Parts.{glue, single_part, split, started_part, wrote};
ghost use Rattle.cells.specs.Steps.{fresh_bytes};
ghost use Rattle.revisions.specs.Pieces.{fresh_counts, fresh_revisions};

use buffers::clear::clear;
use buffers::put::put;
use places::parts;
use sizes::table::Table;
use stores::fresh::caught;

// States, layout and queue.
fn put_revisions(d: &mut [u8])
    requires { length d.old ≡ lower_bytes }
    ensures { d.new ≡ glue (fresh_revisions (split d.old)) }
{
    let state = Table::fresh_state();
    let layout = Table::fresh_layout();
    let queue = Table::fresh_queue();
    put(d, parts::STATE, &state);
    put(d, parts::LAYOUT, &layout);
    put(d, parts::QUEUE, &queue);
}

// Open transactions, counters and signature.
fn put_counts(d: &mut [u8])
    requires { length d.old ≡ lower_bytes }
    ensures { d.new ≡ glue (fresh_counts (split d.old)) }
{
    let opened = Table::fresh_opened();
    let counters = Table::fresh_counters();
    let signature = Table::signature();
    put(d, parts::OPENED, &opened);
    put(d, parts::COUNTERS, &counters);
    put(d, parts::SIGNATURE, &signature);
}

// The choice of a single-main day (02, U8).
fn put_choice(d: &mut [u8], single: bool)
    requires { length d.old ≡ lower_bytes }
    ensures { d.new ≡ wrote d.old single_part (cond single 1 0 ∷ []) }
{
    let choice = Table::fresh_single(single);
    put(d, parts::SINGLE, &choice);
}

// The main box is started (02, U14).
fn put_started(d: &mut [u8])
    requires { length d.old ≡ lower_bytes }
    ensures { d.new ≡ wrote d.old started_part (1 ∷ 0 ∷ []) }
{
    let started = Table::fresh_started();
    put(d, parts::STARTED, &started);
}

pub fn fresh(d: &mut [u8], single: bool)
    requires { length d.old ≡ lower_bytes }
    ensures { d.new ≡ fresh_bytes single }
{
    clear(d);
    caught(d);
    put_revisions(d);
    put_counts(d);
    put_choice(d, single);
    put_started(d);
}
