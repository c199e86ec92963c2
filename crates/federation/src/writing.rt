// The calls that write a course's table, each by its step: update, query, fork, mark and drop on the table alone, yield, join, sync and bundle with its board.
// An update and a bundle take no more of the card than the other courses leave.
ghost use Rattle.std.specs.Prelude.{[], ◌≡◌};
ghost use Rattle.card.specs.Courses.{four, Plain};
ghost use Rattle.desk.specs.Calls.{Bundle, Drop, Fork, Join, Mark, Query, Records, Sync, Update, Yield};
ghost use Rattle.federation.specs.Out.{course_out, four_left};

use crate::on_table::on_table;
use beside::reply::Reply;

pub fn update(
    t0: &mut [u8],
    t1: &mut [u8],
    t2: &mut [u8],
    t3: &mut [u8],
    course: u8,
    client: u8,
    revision: u8,
    kind: u8,
    bib: u16,
    v: u32,
) -> Reply
    ensures { four_left result [] t0.new t1.new t2.new t3.new [] ≡ course_out (four t0.old t1.old t2.old t3.old) course (Plain (Update client revision kind bib v)) }
{
    on_table(t0, t1, t2, t3, course, &mut [], move |t, most, _| {
        Reply::from(updating::update::update_within(t, most, client, revision, kind, bib, v))
    })
}

pub fn query(
    t0: &mut [u8],
    t1: &mut [u8],
    t2: &mut [u8],
    t3: &mut [u8],
    course: u8,
    client: u8,
    revision: u8,
    bib: u16,
) -> Reply
    ensures { four_left result [] t0.new t1.new t2.new t3.new [] ≡ course_out (four t0.old t1.old t2.old t3.old) course (Plain (Query client revision bib)) }
{
    on_table(t0, t1, t2, t3, course, &mut [], move |t, _, _| {
        Reply::from(querying::query::query(t, client, revision, bib))
    })
}

pub fn fork(
    t0: &mut [u8],
    t1: &mut [u8],
    t2: &mut [u8],
    t3: &mut [u8],
    course: u8,
    revision: u8,
) -> Reply
    ensures { four_left result [] t0.new t1.new t2.new t3.new [] ≡ course_out (four t0.old t1.old t2.old t3.old) course (Plain (Fork revision)) }
{
    on_table(t0, t1, t2, t3, course, &mut [], move |t, _, _| {
        Reply::from(forking::fork::fork(t, revision))
    })
}

pub fn mark(
    t0: &mut [u8],
    t1: &mut [u8],
    t2: &mut [u8],
    t3: &mut [u8],
    course: u8,
    revision: u8,
    name: &[u8],
) -> Reply
    ensures { four_left result [] t0.new t1.new t2.new t3.new [] ≡ course_out (four t0.old t1.old t2.old t3.old) course (Plain (Mark revision name.now)) }
{
    on_table(t0, t1, t2, t3, course, &mut [], move |t, _, _| {
        Reply::from(marking::mark::mark(t, revision, name))
    })
}

pub fn drop(
    t0: &mut [u8],
    t1: &mut [u8],
    t2: &mut [u8],
    t3: &mut [u8],
    course: u8,
    name: &[u8],
) -> Reply
    ensures { four_left result [] t0.new t1.new t2.new t3.new [] ≡ course_out (four t0.old t1.old t2.old t3.old) course (Plain (Drop name.now)) }
{
    on_table(t0, t1, t2, t3, course, &mut [], move |t, _, _| {
        Reply::from(marking::drop::drop(t, name))
    })
}

pub fn yields(
    t0: &mut [u8],
    t1: &mut [u8],
    t2: &mut [u8],
    t3: &mut [u8],
    course: u8,
    board: &mut [u8],
    client: u8,
) -> Reply
    ensures { four_left result [] t0.new t1.new t2.new t3.new board.new ≡ course_out (four t0.old t1.old t2.old t3.old) course (Plain (Yield client board.old)) }
{
    on_table(t0, t1, t2, t3, course, board, move |t, _, board| {
        Reply::from(announcing::yields::yields(t, board, client))
    })
}

pub fn join(
    t0: &mut [u8],
    t1: &mut [u8],
    t2: &mut [u8],
    t3: &mut [u8],
    course: u8,
    board: &mut [u8],
    joiner: u8,
    joinee: u8,
) -> Reply
    ensures { four_left result [] t0.new t1.new t2.new t3.new board.new ≡ course_out (four t0.old t1.old t2.old t3.old) course (Plain (Join joiner joinee board.old)) }
{
    on_table(t0, t1, t2, t3, course, board, move |t, _, board| {
        Reply::from(announcing::join::join(t, board, joiner, joinee))
    })
}

pub fn sync(
    t0: &mut [u8],
    t1: &mut [u8],
    t2: &mut [u8],
    t3: &mut [u8],
    course: u8,
    board: &mut [u8],
    joinee: u8,
) -> Reply
    ensures { four_left result [] t0.new t1.new t2.new t3.new board.new ≡ course_out (four t0.old t1.old t2.old t3.old) course (Plain (Sync joinee board.old)) }
{
    on_table(t0, t1, t2, t3, course, board, move |t, _, board| {
        Reply::from(announcing::sync::sync(t, board, joinee))
    })
}

pub fn bundle(
    t0: &mut [u8],
    t1: &mut [u8],
    t2: &mut [u8],
    t3: &mut [u8],
    course: u8,
    board: &mut [u8],
    client: u8,
    revision: u8,
    records: &[u8],
) -> Reply
    ensures { four_left result [] t0.new t1.new t2.new t3.new board.new ≡ course_out (four t0.old t1.old t2.old t3.old) course (Plain (Bundle client revision (Records records.now) board.old)) }
{
    on_table(t0, t1, t2, t3, course, board, move |t, most, board| {
        Reply::from(announcing::bundle::bundle_within(t, board, most, client, revision, records))
    })
}
