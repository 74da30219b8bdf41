//! The words of a line of clauses.

ghost use Rattle.std.specs.Prelude.{◌<◌, length, IfOk};
ghost use Rattle.cnf_form.specs.Reading.{Keeps, TakesLine, EndsAt};

use crate::course::Course;
use crate::front::Front;
use crate::word::first_word;
use std::alloc::{AllocError, Global};

/// Goes on with the words of a line.
pub(crate) fn read_words(
    alloc: Global,
    front: &mut Front,
    line: &[u8],
) -> Result<Course, AllocError>
    requires { Keeps front.old }
    ensures { IfOk result (λ course. TakesLine front.old front.new line.now course) }
{
    let mut rest = line;
    while let Some((word, after)) = first_word(rest) {
        let Some(number) = front.next_number(word) else {
            return Ok(course_of(front, word, after));
        };
        front.push(alloc, number)?;
        rest = after;
    }
    Ok(Course::Fits)
}

// What a word does with which they do not go on: it may grow at the end of a text.
fn course_of(front: &Front, word: &[u8], after: &[u8]) -> Course
    requires keeps { Keeps front.now }
    requires some { 0 < length word.now }
    ensures { EndsAt front.now word.now after.now result }
{
    if after.is_empty() && front.may_grow(word) {
        Course::MayGrow
    } else {
        Course::Breaks
    }
}
