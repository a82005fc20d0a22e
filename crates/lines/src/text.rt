// The text of a line, written from its first byte on, and put to lent bytes when it is whole.
ghost use Rattle.std.specs.Prelude.{◌≡◌, ℕ, [], ◌∷◌, ◌++◌, ◌+◌, ◌≤◌, length, map};
ghost use Rattle.lines.specs.Text.{field, fields, Put};
ghost use Rattle.lines.specs.Question.{line_room, line};
ghost use Rattle.lines.specs.Act.{Writes};

use crate::question::{Line, NoRoom};
use std::marker::Model;

// A number that can stand in a line. The library's Into relates a value to what it may become; a clause
// here names the number itself.
pub(crate) trait Numeral: Copy {
    ghost value: { Self → ℕ };

    // The number in 64 bits.
    fn widened(self) -> u64
        ensures { result ≡ value self };
}

impl Numeral for u8 {
    ghost value = { λ n. n };

    fn widened(self) -> u64 {
        u64::from(self)
    }
}

impl Numeral for u64 {
    ghost value = { λ n. n };

    fn widened(self) -> u64 {
        self
    }
}

// What is written of a line: at most as many bytes as any line needs. No Display writes it: a Display's
// contract tells the bytes only where writing went well, and `Answers`, `Tells` and `Declines` have the
// line wherever 1,024 bytes are lent. No heap: its bytes are an array. No ArrayVec: put_word's three lines
// would be a Result that has to be unwrapped, since each piece fits. Each piece asks for its own room,
// which no fact about the text alone gives.
#[derive(Drop)]
pub(crate) struct Text {
    bytes: [u8; Line::ROOM],
    count: usize,
}

impl Model for Text {
    ghost use Rattle.std.specs.Prelude.{List, ℕ, ◌≤◌, take};
    ghost use Rattle.lines.specs.Question.{line_room};

    ghost Value = { List ℕ };

    ghost view = { λ text. take text.count text.bytes };

    ghost invariant = { λ text. text.count ≤ line_room };
}

impl Text {
    // Nothing yet.
    pub(crate) fn new() -> Text
        ensures { result ≡ [] }
    {
        Text {
            bytes: [0; Line::ROOM],
            count: 0,
        }
    }

    // A word.
    pub(crate) fn put_word(&mut self, word: &[u8])
        requires { length self.old + length word.now ≤ line_room }
        ensures text { self.new ≡ self.old ++ word.now }
        ensures len { length self.new ≡ length self.old + length word.now }
    {
        let end = self.count + word.len();
        self.bytes[self.count..end].copy_from_slice(word);
        self.count = end;
    }

    // A space, and a number in decimal.
    #[tactic(auto, using(crate::proofs::TextLaws::decimal_most))]
    pub(crate) fn put_number(&mut self, n: u64)
        requires { length self.old + length (field n) ≤ line_room }
        ensures text { self.new ≡ self.old ++ field n }
        ensures len { length self.new ≤ length self.old + 21 }
    {
        let mut digits = [0u8; 20];
        let count = io::decimal(n, &mut digits);
        self.put_word(b" ");
        self.put_word(&digits[..count]);
    }

    // Numbers as fields.
    pub(crate) fn put_numbers<N: Numeral>(&mut self, numbers: &[N])
        requires { length self.old + length (fields (map N.value numbers.now)) ≤ line_room }
        ensures text { self.new ≡ self.old ++ fields (map N.value numbers.now) }
        ensures len { length self.new ≡ length self.old + length (fields (map N.value numbers.now)) }
    {
        for n in numbers {
            self.put_number(n.widened());
        }
    }

    // A whole line of a word and numbers.
    pub(crate) fn line(word: &[u8], numbers: &[u64]) -> Text
        requires { length word.now + length (fields numbers.now) + 1 ≤ line_room }
        ensures { result ≡ line word.now numbers.now }
    {
        let mut text = Text::new();
        text.put_word(word);
        text.put_numbers(numbers);
        text.put_word(b"\n");
        text
    }

    // Puts the text to the front of the lent bytes, and gives its length.
    pub(crate) fn put(&self, out: &mut [u8]) -> usize
        requires { line_room ≤ length out.old }
        ensures { Put out.old 0 self.now result out.new }
    {
        out[..self.count].copy_from_slice(&self.bytes[..self.count]);
        self.count
    }

    // Writes the text to the front of any lent bytes, and gives its length.
    pub(crate) fn write(&self, out: &mut [u8]) -> Result<usize, NoRoom>
        ensures { Writes self.now out.old result out.new }
    {
        if out.len() < Line::ROOM {
            return Err(NoRoom);
        }
        Ok(self.put(out))
    }
}
