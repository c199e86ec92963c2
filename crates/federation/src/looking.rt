// The calls that only look at a course's table, each by its step: list, with the sheet that it is lent, fill, preview, verify and bill.
ghost use Rattle.std.specs.Prelude.{[], ◌≡◌};
ghost use Rattle.card.specs.Courses.{Plain, course_served, four};
ghost use Rattle.desk.specs.Calls.{Bill, Fill, Looks, Preview, Show, Verify};
ghost use Rattle.beside.specs.Replies.{replied};

use crate::looks::looks;
use beside::reply::Reply;

pub fn list(
    t0: &[u8],
    t1: &[u8],
    t2: &[u8],
    t3: &[u8],
    course: u8,
    revision: u8,
    sheet: &mut [u8],
) -> Reply
    ensures { replied result sheet.new ≡ (course_served (four t0.now t1.now t2.now t3.now) course (Plain (Looks (Show revision sheet.old)))).reply }
{
    looks(t0, t1, t2, t3, course, sheet, move |t, sheet| {
        Reply::from(listing::list::list(t, revision, sheet))
    })
}

pub fn fill(t0: &[u8], t1: &[u8], t2: &[u8], t3: &[u8], course: u8, revision: u8) -> Reply
    ensures { replied result [] ≡ (course_served (four t0.now t1.now t2.now t3.now) course (Plain (Looks (Fill revision)))).reply }
{
    looks(t0, t1, t2, t3, course, &mut [], move |t, _| {
        Reply::from(listing::fill::fill(t, revision))
    })
}

pub fn preview(
    t0: &[u8],
    t1: &[u8],
    t2: &[u8],
    t3: &[u8],
    course: u8,
    joiner: u8,
    joinee: u8,
    bib: u16,
) -> Reply
    ensures { replied result [] ≡ (course_served (four t0.now t1.now t2.now t3.now) course (Plain (Looks (Preview joiner joinee bib)))).reply }
{
    looks(t0, t1, t2, t3, course, &mut [], move |t, _| {
        Reply::from(previewing::preview::preview(t, joiner, joinee, bib))
    })
}

pub fn verify(t0: &[u8], t1: &[u8], t2: &[u8], t3: &[u8], course: u8, order: &[u8]) -> Reply
    ensures { replied result [] ≡ (course_served (four t0.now t1.now t2.now t3.now) course (Plain (Looks (Verify order.now)))).reply }
{
    looks(t0, t1, t2, t3, course, &mut [], move |t, _| {
        Reply::from(verifying::verify::verify(t, order))
    })
}

pub fn bill(t0: &[u8], t1: &[u8], t2: &[u8], t3: &[u8], course: u8, member: bool) -> Reply
    ensures { replied result [] ≡ (course_served (four t0.now t1.now t2.now t3.now) course (Plain (Looks (Bill member)))).reply }
{
    looks(t0, t1, t2, t3, course, &mut [], move |t, _| {
        Reply::from(billing::bill::bill(t, member))
    })
}
