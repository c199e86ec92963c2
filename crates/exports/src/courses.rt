// The calls on four tables (02, U12) for C and Rust: as the table's calls, with four tables in place of one, then the number of the course. The tables and
// what else is lent must not overlap.
ghost use Rattle.std.specs.Prelude.{not, [], ◌≡◌, eqb};
ghost use Rattle.card.specs.Courses.{Fresh, Plain, course_served, four};
ghost use Rattle.desk.specs.Calls.{Bill, Bundle, Drop, Fill, Fork, Join, Looks, Mark, Preview, Query, Records, Show, Sync, Update, Verify, Yield};
ghost use Rattle.packing.specs.Packed.{packed_reply, returned};
ghost use Rattle.exports.specs.Four.{course_exported, exported_reply, four_returned};

use federation::fresh::fresh;
use packing::pack::pack_reply;

#[unsafe(no_mangle)]
pub extern "C" fn silttongs_course_fresh(
    t0: &mut [u8],
    t1: &mut [u8],
    t2: &mut [u8],
    t3: &mut [u8],
    course: u8,
    board: &mut [u8],
    single: u8,
) -> u64
    ensures { four_returned result t0.new t1.new t2.new t3.new board.new ≡ course_exported (four t0.old t1.old t2.old t3.old) course (Fresh (not (eqb single 0)) board.old) }
{
    pack_reply(fresh(t0, t1, t2, t3, course, board, single != 0))
}

#[unsafe(no_mangle)]
pub extern "C" fn silttongs_course_update(
    t0: &mut [u8],
    t1: &mut [u8],
    t2: &mut [u8],
    t3: &mut [u8],
    course: u8,
    client: u8,
    revision: u8,
    kind: u8,
    bib: u16,
    v: u32,
) -> u64
    ensures { four_returned result t0.new t1.new t2.new t3.new [] ≡ course_exported (four t0.old t1.old t2.old t3.old) course (Plain (Update client revision kind bib v)) }
{
    pack_reply(federation::writing::update(t0, t1, t2, t3, course, client, revision, kind, bib, v))
}

#[unsafe(no_mangle)]
pub extern "C" fn silttongs_course_bundle(
    t0: &mut [u8],
    t1: &mut [u8],
    t2: &mut [u8],
    t3: &mut [u8],
    course: u8,
    board: &mut [u8],
    client: u8,
    revision: u8,
    records: &[u8],
) -> u64
    ensures { four_returned result t0.new t1.new t2.new t3.new board.new ≡ course_exported (four t0.old t1.old t2.old t3.old) course (Plain (Bundle client revision (Records records.now) board.old)) }
{
    pack_reply(federation::writing::bundle(
        t0, t1, t2, t3, course, board, client, revision, records,
    ))
}

#[unsafe(no_mangle)]
pub extern "C" fn silttongs_course_query(
    t0: &mut [u8],
    t1: &mut [u8],
    t2: &mut [u8],
    t3: &mut [u8],
    course: u8,
    client: u8,
    revision: u8,
    bib: u16,
) -> u64
    ensures { four_returned result t0.new t1.new t2.new t3.new [] ≡ course_exported (four t0.old t1.old t2.old t3.old) course (Plain (Query client revision bib)) }
{
    pack_reply(federation::writing::query(t0, t1, t2, t3, course, client, revision, bib))
}

#[unsafe(no_mangle)]
pub extern "C" fn silttongs_course_yield(
    t0: &mut [u8],
    t1: &mut [u8],
    t2: &mut [u8],
    t3: &mut [u8],
    course: u8,
    board: &mut [u8],
    client: u8,
) -> u64
    ensures { four_returned result t0.new t1.new t2.new t3.new board.new ≡ course_exported (four t0.old t1.old t2.old t3.old) course (Plain (Yield client board.old)) }
{
    pack_reply(federation::writing::yields(t0, t1, t2, t3, course, board, client))
}

#[unsafe(no_mangle)]
pub extern "C" fn silttongs_course_fork(
    t0: &mut [u8],
    t1: &mut [u8],
    t2: &mut [u8],
    t3: &mut [u8],
    course: u8,
    revision: u8,
) -> u64
    ensures { four_returned result t0.new t1.new t2.new t3.new [] ≡ course_exported (four t0.old t1.old t2.old t3.old) course (Plain (Fork revision)) }
{
    pack_reply(federation::writing::fork(t0, t1, t2, t3, course, revision))
}

#[unsafe(no_mangle)]
pub extern "C" fn silttongs_course_join(
    t0: &mut [u8],
    t1: &mut [u8],
    t2: &mut [u8],
    t3: &mut [u8],
    course: u8,
    board: &mut [u8],
    joiner: u8,
    joinee: u8,
) -> u64
    ensures { four_returned result t0.new t1.new t2.new t3.new board.new ≡ course_exported (four t0.old t1.old t2.old t3.old) course (Plain (Join joiner joinee board.old)) }
{
    pack_reply(federation::writing::join(t0, t1, t2, t3, course, board, joiner, joinee))
}

#[unsafe(no_mangle)]
pub extern "C" fn silttongs_course_sync(
    t0: &mut [u8],
    t1: &mut [u8],
    t2: &mut [u8],
    t3: &mut [u8],
    course: u8,
    board: &mut [u8],
    joinee: u8,
) -> u64
    ensures { four_returned result t0.new t1.new t2.new t3.new board.new ≡ course_exported (four t0.old t1.old t2.old t3.old) course (Plain (Sync joinee board.old)) }
{
    pack_reply(federation::writing::sync(t0, t1, t2, t3, course, board, joinee))
}

#[unsafe(no_mangle)]
pub extern "C" fn silttongs_course_mark(
    t0: &mut [u8],
    t1: &mut [u8],
    t2: &mut [u8],
    t3: &mut [u8],
    course: u8,
    revision: u8,
    name: &[u8],
) -> u64
    ensures { four_returned result t0.new t1.new t2.new t3.new [] ≡ course_exported (four t0.old t1.old t2.old t3.old) course (Plain (Mark revision name.now)) }
{
    pack_reply(federation::writing::mark(t0, t1, t2, t3, course, revision, name))
}

#[unsafe(no_mangle)]
pub extern "C" fn silttongs_course_drop(
    t0: &mut [u8],
    t1: &mut [u8],
    t2: &mut [u8],
    t3: &mut [u8],
    course: u8,
    name: &[u8],
) -> u64
    ensures { four_returned result t0.new t1.new t2.new t3.new [] ≡ course_exported (four t0.old t1.old t2.old t3.old) course (Plain (Drop name.now)) }
{
    pack_reply(federation::writing::drop(t0, t1, t2, t3, course, name))
}

#[unsafe(no_mangle)]
pub extern "C" fn silttongs_course_list(
    t0: &[u8],
    t1: &[u8],
    t2: &[u8],
    t3: &[u8],
    course: u8,
    revision: u8,
    sheet: &mut [u8],
) -> u64
    ensures { returned result sheet.new ≡ exported_reply (course_served (four t0.now t1.now t2.now t3.now) course (Plain (Looks (Show revision sheet.old)))).reply }
{
    pack_reply(federation::looking::list(t0, t1, t2, t3, course, revision, sheet))
}

#[unsafe(no_mangle)]
pub extern "C" fn silttongs_course_fill(
    t0: &[u8],
    t1: &[u8],
    t2: &[u8],
    t3: &[u8],
    course: u8,
    revision: u8,
) -> u64
    ensures { result ≡ packed_reply (course_served (four t0.now t1.now t2.now t3.now) course (Plain (Looks (Fill revision)))).reply }
{
    pack_reply(federation::looking::fill(t0, t1, t2, t3, course, revision))
}

#[unsafe(no_mangle)]
pub extern "C" fn silttongs_course_preview(
    t0: &[u8],
    t1: &[u8],
    t2: &[u8],
    t3: &[u8],
    course: u8,
    joiner: u8,
    joinee: u8,
    bib: u16,
) -> u64
    ensures { result ≡ packed_reply (course_served (four t0.now t1.now t2.now t3.now) course (Plain (Looks (Preview joiner joinee bib)))).reply }
{
    pack_reply(federation::looking::preview(t0, t1, t2, t3, course, joiner, joinee, bib))
}

#[unsafe(no_mangle)]
pub extern "C" fn silttongs_course_verify(
    t0: &[u8],
    t1: &[u8],
    t2: &[u8],
    t3: &[u8],
    course: u8,
    order: &[u8],
) -> u64
    ensures { result ≡ packed_reply (course_served (four t0.now t1.now t2.now t3.now) course (Plain (Looks (Verify order.now)))).reply }
{
    pack_reply(federation::looking::verify(t0, t1, t2, t3, course, order))
}

#[unsafe(no_mangle)]
pub extern "C" fn silttongs_course_bill(
    t0: &[u8],
    t1: &[u8],
    t2: &[u8],
    t3: &[u8],
    course: u8,
    member: u8,
) -> u64
    ensures { result ≡ packed_reply (course_served (four t0.now t1.now t2.now t3.now) course (Plain (Looks (Bill (not (eqb member 0)))))).reply }
{
    pack_reply(federation::looking::bill(t0, t1, t2, t3, course, member != 0))
}
