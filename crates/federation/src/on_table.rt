// Calls that write a course's table: the step is run on the table, with how many updates it may have, and on the board that the call is lent; none is an
// empty one.
ghost use Rattle.std.specs.Prelude.{[], ◌≡◌, ℕ, List};
ghost use Rattle.card.specs.Courses.{four, Plain};
ghost use Rattle.card.specs.Room.{served_beside};
ghost use Rattle.desk.specs.Calls.{Call};
ghost use Rattle.federation.specs.Out.{course_out, four_left, served_as};
ghost use Rattle.federation.specs.Steps.{Lends, Serves};

use beside::number::{CourseCheck, check_course};
use beside::others::{check_three, most_beside};
use beside::reply::{Reply, no_course};
use table::sound::TableCheck;

// The step on the table t, with its board, beside the other three.
fn on_beside<F: FnOnce(&mut [u8], usize, &mut [u8]) -> Reply>(
    t: &mut [u8],
    a: &[u8],
    b: &[u8],
    c: &[u8],
    board: &mut [u8],
    step: F,
) -> Reply
    ghost call: { Call (List ℕ) }
    requires callable { F.IsAlwaysCallable step }
    requires lends { Lends call board.old }
    requires serves { Serves (F.post step) call board.old }
    ensures { served_as result [] t.new board.new ≡ served_beside a.now b.now c.now t.old call }
{
    let TableCheck::Sound = check_three(a, b, c) else {
        return no_course();
    };
    step(t, most_beside(a, b, c), board)
}

pub fn on_table<F: FnOnce(&mut [u8], usize, &mut [u8]) -> Reply>(
    t0: &mut [u8],
    t1: &mut [u8],
    t2: &mut [u8],
    t3: &mut [u8],
    course: u8,
    board: &mut [u8],
    step: F,
) -> Reply
    ghost call: { Call (List ℕ) }
    requires callable { F.IsAlwaysCallable step }
    requires lends { Lends call board.old }
    requires serves { Serves (F.post step) call board.old }
    ensures { four_left result [] t0.new t1.new t2.new t3.new board.new ≡ course_out (four t0.old t1.old t2.old t3.old) course (Plain call) }
{
    let CourseCheck::Known = check_course(course) else {
        return no_course();
    };
    match course {
        0 => on_beside(t0, t1, t2, t3, board, step),
        1 => on_beside(t1, t0, t2, t3, board, step),
        2 => on_beside(t2, t0, t1, t3, board, step),
        _ => on_beside(t3, t0, t1, t2, board, step),
    }
}
