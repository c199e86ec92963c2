// The call fresh: a course's table and board begin a new day. The other three may be anything: "for fresh: its own length only".
ghost use Rattle.std.specs.Prelude.{[], ◌≡◌};
ghost use Rattle.card.specs.Courses.{four, Fresh, made_fresh};
ghost use Rattle.federation.specs.Out.{course_out, four_left, served_as};

use beside::number::{CourseCheck, check_course};
use beside::reply::{Reply, no_course};

fn make(t: &mut [u8], board: &mut [u8], single: bool) -> Reply
    ensures { served_as result [] t.new board.new ≡ made_fresh t.old single board.old }
{
    Reply::from(announcing::fresh::fresh(t, board, single))
}

pub fn fresh(
    t0: &mut [u8],
    t1: &mut [u8],
    t2: &mut [u8],
    t3: &mut [u8],
    course: u8,
    board: &mut [u8],
    single: bool,
) -> Reply
    ensures { four_left result [] t0.new t1.new t2.new t3.new board.new ≡ course_out (four t0.old t1.old t2.old t3.old) course (Fresh single board.old) }
{
    let CourseCheck::Known = check_course(course) else {
        return no_course();
    };
    match course {
        0 => make(t0, board, single),
        1 => make(t1, board, single),
        2 => make(t2, board, single),
        _ => make(t3, board, single),
    }
}
