// The lines of two sites over a scripted line: what both show after an act, and why none were opened.
#![tactic(auto, using(std::proofs::lemmas::Grind::common_steps, crate::proofs::TextLaws::decimal_most))]

ghost use Rattle.std.specs.Prelude.{◌≡◌, ◌++◌, ◌+◌, ◌≤◌, length};
ghost use Rattle.lines.specs.Question.{line_room};
ghost use Rattle.lines.specs.Act.{site_text, taken_text, outcome_text, act_line, Tells, opening_line, Declines};

use crate::question::{Line, NoRoom, refused_line};
use crate::text::Text;
use decision::Refused;
use sites::{NoteKind, NoteRefused, Site};

// What became of an act: an enum of its own and no Option, since a note and no note are told in words.
#[derive(Clone, Copy)]
pub enum Outcome {
    // The sites show it.
    Quiet,
    // The note of this entry was written.
    Note(usize),
    // There was no note.
    Nothing,
    // What became of a note that was brought.
    Brought(Result<NoteKind, NoteRefused>),
}

// What a site shows, and whether it rests.
fn put_site(text: &mut Text, site: &Site)
    requires { length text.old + 30 ≤ line_room }
    ensures text { text.new ≡ text.old ++ site_text site.now }
    ensures short { length text.new ≤ length text.old + 30 }
{
    text.put_number(u64::from(site.shown().minute));
    if site.rests() {
        text.put_word(b" rest");
    } else {
        text.put_word(b" busy");
    }
}

// What became of a note.
fn put_taken(text: &mut Text, answer: Result<NoteKind, NoteRefused>)
    requires { length text.old + 30 ≤ line_room }
    ensures text { text.new ≡ text.old ++ taken_text answer }
    ensures short { length text.new ≤ length text.old + 30 }
{
    match answer {
        Ok(NoteKind::Raise) => text.put_word(b" RECEIPT"),
        Ok(NoteKind::Receipt) => text.put_word(b" TAKEN"),
        Err(why) => {
            text.put_word(b" REFUSED");
            text.put_number(u64::from(sites::note_refusal_number(why)));
        }
    }
}

// What became of an act.
fn put_outcome(text: &mut Text, outcome: Outcome)
    requires { length text.old + 30 ≤ line_room }
    ensures text { text.new ≡ text.old ++ outcome_text outcome }
    ensures short { length text.new ≤ length text.old + 30 }
{
    match outcome {
        Outcome::Quiet => {}
        Outcome::Note(entry) => {
            text.put_word(b" NOTE");
            // No From leads from usize to u64, and a TryFrom would have to be unwrapped.
            text.put_number(entry as u64);
        }
        Outcome::Nothing => text.put_word(b" NONE"),
        Outcome::Brought(answer) => put_taken(text, answer),
    }
}

// The text of the line after an act.
fn act_text(a: &Site, b: &Site, outcome: Outcome) -> Text
    ensures { result ≡ act_line a.now b.now outcome }
{
    let mut text = Text::new();
    text.put_word(b"A");
    put_site(&mut text, a);
    text.put_word(b" B");
    put_site(&mut text, b);
    put_outcome(&mut text, outcome);
    text.put_word(b"\n");
    text
}

// Writes the line after an act to the front of the lent bytes, and gives its length.
pub fn act_line(a: Site, b: Site, outcome: Outcome, out: &mut [u8]) -> Result<usize, NoRoom>
    ensures { Tells a b outcome out.old result out.new }
{
    act_text(&a, &b, outcome).write(out)
}

// Why two sites were not opened: what a line is made of, and no answer.
#[derive(Clone, Copy)]
pub enum Unopened {
    // The input ends before the acts: 9.
    CutShort,
    // The first is refused.
    First(Refused),
    // The second is refused.
    Second(Refused),
}

// The text of the line of two sites that were not opened.
fn opening_text(why: Unopened) -> Text
    ensures { result ≡ opening_line why }
{
    match why {
        Unopened::CutShort => Text::line(b"REFUSED", &[Line::CUT_SHORT]),
        Unopened::First(refused) => refused_line(b"REFUSED A", refused),
        Unopened::Second(refused) => refused_line(b"REFUSED B", refused),
    }
}

// Writes the line of two sites that were not opened to the front of the lent bytes, and gives its length.
pub fn opening_line(why: Unopened, out: &mut [u8]) -> Result<usize, NoRoom>
    ensures { Declines why out.old result out.new }
{
    opening_text(why).write(out)
}
