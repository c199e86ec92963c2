// The calls of the table for C and Rust: numbers and byte slices alone, the answer packed into one number
// (`packing` specs/Packed.antt). A slice is passed as a pointer and a length.
#![tactic(auto)]

ghost use Rattle.std.specs.Prelude.{not, ◌≡◌, eqb, ◌≤◌, length};
ghost use Rattle.lists.specs.Differences.{differences};
ghost use Rattle.table.specs.Calls.{bill_out, board_out, bundle_out, drop_out, fill_out, fork_out, fresh_board, fresh_out, join_out, list_out, mark_out, preview_out, query_out, sync_out, update_out, verify_out, yield_out};
ghost use Rattle.packing.specs.Packed.{exported, exported_answer, exported_level, exported_prospect, returned};

use beside::reply::Reply;
use packing::pack::pack_reply;

pub mod courses; // courses.rt: the calls on four tables

#[unsafe(no_mangle)]
pub extern "C" fn silttongs_fresh(t: &mut [u8], board: &mut [u8], single: u8) -> u64
    ensures { (returned result t.new ≡ exported (fresh_out t.old (not (eqb single 0)) (length board.old))) × (board.new ≡ fresh_board t.old (not (eqb single 0)) board.old) }
{
    let a = announcing::fresh::fresh(t, board, single != 0);
    pack_reply(Reply::from(a))
}

#[unsafe(no_mangle)]
pub extern "C" fn silttongs_update(
    t: &mut [u8],
    client: u8,
    revision: u8,
    kind: u8,
    bib: u16,
    v: u32,
) -> u64
    ensures { returned result t.new ≡ exported (update_out t.old client revision kind bib v) }
{
    let a = updating::update::update(t, client, revision, kind, bib, v);
    pack_reply(Reply::from(a))
}

#[unsafe(no_mangle)]
pub extern "C" fn silttongs_bundle(
    t: &mut [u8],
    board: &mut [u8],
    client: u8,
    revision: u8,
    records: &[u8],
) -> u64
    ensures { (returned result t.new ≡ exported (bundle_out t.old client revision records.now (length board.old))) × (board.new ≡ board_out t.old t.new board.old) }
{
    let a = announcing::bundle::bundle(t, board, client, revision, records);
    pack_reply(Reply::from(a))
}

#[unsafe(no_mangle)]
pub extern "C" fn silttongs_query(t: &mut [u8], client: u8, revision: u8, bib: u16) -> u64
    ensures { returned result t.new ≡ exported (query_out t.old client revision bib) }
{
    let a = querying::query::query(t, client, revision, bib);
    pack_reply(Reply::from(a))
}

#[unsafe(no_mangle)]
pub extern "C" fn silttongs_yield(t: &mut [u8], board: &mut [u8], client: u8) -> u64
    ensures { (returned result t.new ≡ exported (yield_out t.old client (length board.old))) × (board.new ≡ board_out t.old t.new board.old) }
{
    let a = announcing::yields::yields(t, board, client);
    pack_reply(Reply::from(a))
}

#[unsafe(no_mangle)]
pub extern "C" fn silttongs_fork(t: &mut [u8], revision: u8) -> u64
    ensures { returned result t.new ≡ exported (fork_out t.old revision) }
{
    let a = forking::fork::fork(t, revision);
    pack_reply(Reply::from(a))
}

#[unsafe(no_mangle)]
pub extern "C" fn silttongs_join(t: &mut [u8], board: &mut [u8], joiner: u8, joinee: u8) -> u64
    ensures { (returned result t.new ≡ exported (join_out t.old joiner joinee (length board.old))) × (board.new ≡ board_out t.old t.new board.old) × (differences t.old t.new ≤ 256) }
{
    let a = announcing::join::join(t, board, joiner, joinee);
    pack_reply(Reply::from(a))
}

#[unsafe(no_mangle)]
pub extern "C" fn silttongs_sync(t: &mut [u8], board: &mut [u8], joinee: u8) -> u64
    ensures { (returned result t.new ≡ exported (sync_out t.old joinee (length board.old))) × (board.new ≡ board_out t.old t.new board.old) × (differences t.old t.new ≤ 512) }
{
    let a = announcing::sync::sync(t, board, joinee);
    pack_reply(Reply::from(a))
}

#[unsafe(no_mangle)]
pub extern "C" fn silttongs_mark(t: &mut [u8], revision: u8, name: &[u8]) -> u64
    ensures { returned result t.new ≡ exported (mark_out t.old revision name.now) }
{
    let a = marking::mark::mark(t, revision, name);
    pack_reply(Reply::from(a))
}

#[unsafe(no_mangle)]
pub extern "C" fn silttongs_drop(t: &mut [u8], name: &[u8]) -> u64
    ensures { returned result t.new ≡ exported (drop_out t.old name.now) }
{
    let a = marking::drop::drop(t, name);
    pack_reply(Reply::from(a))
}

#[unsafe(no_mangle)]
pub extern "C" fn silttongs_list(t: &[u8], revision: u8, sheet: &mut [u8]) -> u64
    ensures { returned result sheet.new ≡ exported (list_out t.now revision sheet.old) }
{
    let a = listing::list::list(t, revision, sheet);
    pack_reply(Reply::from(a))
}

#[unsafe(no_mangle)]
pub extern "C" fn silttongs_fill(t: &[u8], revision: u8) -> u64
    ensures { result ≡ exported_level (fill_out t.now revision) }
{
    let f = listing::fill::fill(t, revision);
    pack_reply(Reply::from(f))
}

#[unsafe(no_mangle)]
pub extern "C" fn silttongs_preview(t: &[u8], joiner: u8, joinee: u8, bib: u16) -> u64
    ensures { result ≡ exported_prospect (preview_out t.now joiner joinee bib) }
{
    let p = previewing::preview::preview(t, joiner, joinee, bib);
    pack_reply(Reply::from(p))
}

#[unsafe(no_mangle)]
pub extern "C" fn silttongs_verify(t: &[u8], order: &[u8]) -> u64
    ensures { result ≡ exported_answer (verify_out t.now order.now) }
{
    let a = verifying::verify::verify(t, order);
    pack_reply(Reply::from(a))
}

#[unsafe(no_mangle)]
pub extern "C" fn silttongs_bill(t: &[u8], member: u8) -> u64
    ensures { result ≡ exported_answer (bill_out t.now (not (eqb member 0))) }
{
    let a = billing::bill::bill(t, member != 0);
    pack_reply(Reply::from(a))
}
