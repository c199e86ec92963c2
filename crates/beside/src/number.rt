// Code 1 of the number of a course: it is 0 to 3.
ghost use Rattle.std.specs.Prelude.{◌≡◌};
ghost use Rattle.beside.specs.Number.{course_check};

use crate::others::Card;

#[derive(Drop)]
pub enum CourseCheck {
    Known,
    Unknown,
}

pub fn check_course(course: u8) -> CourseCheck
    ensures { result ≡ course_check course }
{
    if course < Card::COURSES {
        return CourseCheck::Known;
    }
    CourseCheck::Unknown
}
