// Lines on standard output.
ghost use Rattle.std.specs.Prelude.{◌≡◌, min, length};
ghost use Rattle.lines.specs.Stream.{counted};
ghost use Rattle.lines.specs.Question.{length_of, Prints};

use crate::question::{Line, NoRoom, question_line};
use crate::stream::Failed;

// Writes a line that stands at the front of the lent bytes to standard output, and gives the length that
// was handed over to be written, 0 for a line that was not made; where writing fails, it is told on
// standard error. No contract can say what was written; what is said is how many of the bytes were handed
// over.
pub fn print(
    rt: &(impl Print + Eprint),
    lined: Result<usize, NoRoom>,
    line: &[u8],
) -> Result<usize, Failed>
    ensures { counted result ≡ min (length_of lined) (length line.now) }
{
    let end = lined?;
    let count = end.min(line.len());
    if rt.write_all(&line[..count]).is_err() {
        let _ = rt.eprintln("standard output cannot be written");
        return Err(Failed { count });
    }
    Ok(count)
}

// Writes the line of a question's bytes to standard output.
pub fn answer(rt: &(impl Print + Eprint), question: &[u8]) -> Result<usize, Failed>
    ensures { Prints question.now result }
{
    let mut line = [0u8; Line::ROOM];
    let lined = question_line(question, &mut line);
    print(rt, lined, &line)
}
