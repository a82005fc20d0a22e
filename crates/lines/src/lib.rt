// What the programs read and print. Each line is a value: a function writes it to the front of lent
// bytes and gives its length. The bytes are lent and the length is given, since the programs have no heap.
#![tactic(auto)]

mod act;
mod input;
mod printing;
mod question;
mod stream;
mod text;

pub use act::{Outcome, Unopened, act_line, opening_line};
pub use input::read_input;
pub use printing::{answer, print};
pub use question::{Line, NoRoom, question_line};
pub use stream::Failed;
