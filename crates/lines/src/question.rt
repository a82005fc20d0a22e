// The line of one question.
//
// A question is owner, asker and rights, a byte each, T in 4 bytes, high byte first, and then the
// file. The line is one of
//
//   GRANTED minute steps passes chain..
//   NO-CHAIN passes
//   GRANTED-LONG minute passes
//   REFUSED number record
#![tactic(auto, using(std::proofs::lemmas::Grind::common_steps, crate::proofs::TextLaws::decimal_most))]

ghost use Rattle.std.specs.Prelude.{◌≡◌, ◌∷◌, ◌+◌, ◌≤◌, length, take};
ghost use Rattle.wac.specs.Limits.{chain_places};
ghost use Rattle.decision.specs.Question.{reply_of};
ghost use Rattle.lines.specs.Question.{line_room, granted, line, line_of, Asks, Answers};
ghost use Rattle.lines.specs.Act.{refused_text};

use crate::text::Text;
use decision::{Refused, Request, Verdict};
use wac::Table;

// The numbers of a line are associated constants.
#[derive(Clone, Copy)]
pub struct Line;

impl Line {
    // How many bytes of a question stand before the file.
    pub const REQUEST: usize = 7;

    // As many lent bytes as any line fits.
    pub const ROOM: usize = 1024;

    // The number that refuses a question with fewer bytes than a request.
    pub const CUT_SHORT: u64 = 9;
}

// Under 1,024 bytes are lent for a line: 23.
#[derive(Clone, Copy)]
pub struct NoRoom;

// The line of a granted question: minute, steps, passes, and the certificates of the chain.
fn granted_line(minute: u32, steps: u32, passes: u64, chain: &[u8]) -> Text
    requires { length chain.now ≤ chain_places }
    ensures { result ≡ line granted (minute ∷ steps ∷ passes ∷ take steps chain.now) }
{
    // No From leads from u32 to usize, and a TryFrom would have to be unwrapped.
    let count = (steps as usize).min(chain.len());
    let mut line = Text::new();
    line.put_word(b"GRANTED");
    line.put_numbers(&[u64::from(minute), u64::from(steps), passes]);
    line.put_numbers(&chain[..count]);
    line.put_word(b"\n");
    line
}

// The line of a refusal, after these words.
pub(crate) fn refused_line(words: &[u8], why: Refused) -> Text
    requires { length words.now + 43 ≤ line_room }
    ensures { result ≡ refused_text words.now why }
{
    let number = u64::from(decision::refusal_number(why));
    // No From leads from usize to u64, and a TryFrom would have to be unwrapped.
    let record = decision::refusal_record(why) as u64;
    Text::line(words, &[number, record])
}

// The line of a verdict, or of why there is none.
fn verdict_line(verdict: Result<Verdict, Refused>, chain: &[u8]) -> Text
    requires { length chain.now ≤ chain_places }
    ensures { result ≡ line_of (reply_of verdict) chain.now }
{
    match verdict {
        Ok(Verdict::Granted(minute, steps, passes)) => granted_line(minute, steps, passes, chain),
        Ok(Verdict::NoChain(passes)) => Text::line(b"NO-CHAIN", &[passes]),
        Ok(Verdict::GrantedLong(minute, passes)) => {
            Text::line(b"GRANTED-LONG", &[u64::from(minute), passes])
        }
        Err(why) => refused_line(b"REFUSED", why),
    }
}

// Asks a question, and puts the line of its verdict to the front of the lent bytes.
fn put_asked(out: &mut [u8], file: &[u8], request: Request) -> usize
    requires { line_room ≤ length out.old }
    ensures { Asks file.now request out.old result out.new }
{
    let mut minutes = [0u32; Table::ENTRIES];
    let mut steps = [0u32; Table::ENTRIES];
    let mut chain = [0u8; Table::CHAIN_PLACES];
    let verdict = decision::ask(file, request, &mut minutes, &mut steps, &mut chain);
    verdict_line(verdict, &chain).put(out)
}

// Writes the line of a question's bytes to the front of the lent bytes, and gives its length. Any bytes;
// lent bytes past the line stay.
pub fn question_line(question: &[u8], out: &mut [u8]) -> Result<usize, NoRoom>
    ensures { Answers question.now out.old result out.new }
{
    if out.len() < Line::ROOM {
        return Err(NoRoom);
    }
    let [owner, asker, rights, t0, t1, t2, t3, ..] = question else {
        return Ok(Text::line(b"REFUSED", &[Line::CUT_SHORT, 0]).put(out));
    };
    let request = Request {
        owner: *owner,
        asker: *asker,
        rights: *rights,
        at: wac::word_of(*t0, *t1, *t2, *t3),
    };
    Ok(put_asked(out, &question[Line::REQUEST..], request))
}
