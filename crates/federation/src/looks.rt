// Calls that only look at a course's table: the step is run on it, and on the sheet that the call is lent; none is an empty one.
ghost use Rattle.std.specs.Prelude.{◌≡◌, ℕ, List};
ghost use Rattle.card.specs.Courses.{Plain, course_served, four};
ghost use Rattle.card.specs.Room.{served_beside};
ghost use Rattle.desk.specs.Calls.{Look, Looks};
ghost use Rattle.beside.specs.Replies.{replied};
ghost use Rattle.federation.specs.Steps.{LendsSheet, Shows};

use beside::number::{CourseCheck, check_course};
use beside::others::check_three;
use beside::reply::{Reply, no_course};
use table::sound::TableCheck;

// The step on the table t, with the sheet, beside the other three.
fn on_beside<F: FnOnce(&[u8], &mut [u8]) -> Reply>(
    t: &[u8],
    a: &[u8],
    b: &[u8],
    c: &[u8],
    sheet: &mut [u8],
    step: F,
) -> Reply
    ghost look: { Look (List ℕ) }
    requires callable { F.IsAlwaysCallable step }
    requires lends { LendsSheet look sheet.old }
    requires shows { Shows (F.post step) look sheet.old }
    ensures { replied result sheet.new ≡ (served_beside a.now b.now c.now t.now (Looks look)).reply }
{
    let TableCheck::Sound = check_three(a, b, c) else {
        return no_course();
    };
    step(t, sheet)
}

pub fn looks<F: FnOnce(&[u8], &mut [u8]) -> Reply>(
    t0: &[u8],
    t1: &[u8],
    t2: &[u8],
    t3: &[u8],
    course: u8,
    sheet: &mut [u8],
    step: F,
) -> Reply
    ghost look: { Look (List ℕ) }
    requires callable { F.IsAlwaysCallable step }
    requires lends { LendsSheet look sheet.old }
    requires shows { Shows (F.post step) look sheet.old }
    ensures { replied result sheet.new ≡ (course_served (four t0.now t1.now t2.now t3.now) course (Plain (Looks look))).reply }
{
    let CourseCheck::Known = check_course(course) else {
        return no_course();
    };
    match course {
        0 => on_beside(t0, t1, t2, t3, sheet, step),
        1 => on_beside(t1, t0, t2, t3, sheet, step),
        2 => on_beside(t2, t0, t1, t3, sheet, step),
        _ => on_beside(t3, t0, t1, t2, sheet, step),
    }
}
