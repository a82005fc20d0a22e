// The decision: each function passes what it is given to one public function of `decision` and
// gives the answer as one number.
ghost use Rattle.std.specs.Prelude.{◌≡◌};
ghost use Rattle.wac.specs.Limits.{keys};
ghost use Rattle.decision.specs.Question.{request_of, shown_as, answered_as};
ghost use Rattle.boundary.specs.Questions.{
  wide_code,
  verdict_code,
  answer_code,
  shown_code,
  bits,
  stocked_code,
  long_code,
  settling_code,
  AskCoded,
  MayCoded,
  StockCoded,
  SettleCoded,
};

use crate::code_of;
use decision::{Refused, Request, Verdict};
use wac::Table;

// 2^32, 2^48 and 2^56: where passes, steps and number begin in a verdict's code.
const PASSES: u64 = 4294967296;

const STEPS: u64 = 281474976710656;

const NUMBER: u64 = 72057594037927936;

// A number and up to three values as one number.
fn wide_code(number: u8, steps: u32, passes: u64, minute: u64) -> u64
    ensures { result ≡ wide_code number steps passes minute }
{
    u64::from(number) * NUMBER
        + u64::from(steps % 256) * STEPS
        + passes % 65536 * PASSES
        + minute % PASSES
}

// A verdict as one number. No From leads from a record's usize to u64.
fn verdict_code(verdict: Result<Verdict, Refused>) -> u64
    ensures { result ≡ verdict_code verdict }
{
    match verdict {
        Ok(Verdict::Granted(minute, steps, passes)) => wide_code(
            0,
            steps,
            passes,
            u64::from(minute),
        ),
        Ok(Verdict::NoChain(passes)) => wide_code(1, 0, passes, 0),
        Ok(Verdict::GrantedLong(minute, passes)) => wide_code(2, 0, passes, u64::from(minute)),
        Err(why) => wide_code(
            decision::refusal_number(why),
            0,
            0,
            decision::refusal_record(why) as u64,
        ),
    }
}

// A number, or a refusal's number alone, as one number.
fn number_code(answer: Result<usize, u8>) -> u32
    ensures { result ≡ answer_code (λ n. n) (shown_as answer) }
{
    match answer {
        Ok(value) => code_of(0, value),
        Err(number) => code_of(number, 0),
    }
}

// What the read screen shows, as one number.
fn shown_code(shown: Result<bool, u8>) -> u32
    ensures { result ≡ shown_code (shown_as shown) }
{
    number_code(shown.map(|yes| usize::from(yes)))
}

// The sum of 2^k over the keys k that get yes, from the last key to the first. By key and not over the
// list turned round: the sum so far is said of the keys from `key` on (`bits`), and such a walk names none.
fn bits_of(list: [bool; Table::KEYS]) -> usize
    ensures { result ≡ bits list 0 keys }
{
    let mut sum = 0;
    for key in (0..Table::KEYS).rev() {
        sum = 2 * sum + usize::from(list[key]);
    }
    sum
}

// A stock list as one number.
fn stocked_code(list: Result<[bool; Table::KEYS], u8>) -> u32
    ensures { result ≡ stocked_code (shown_as list) }
{
    number_code(list.map(bits_of))
}

// A number and one long value as one number.
fn long_code(number: u8, value: u64) -> u64
    ensures { result ≡ long_code number value }
{
    u64::from(number) * NUMBER + value % NUMBER
}

// What settling answers, as one number. No From leads from a record's usize to u64.
fn settling_code(settling: Result<u64, Refused>) -> u64
    ensures { result ≡ settling_code (answered_as settling) }
{
    match settling {
        Ok(passes) => long_code(0, passes),
        Err(why) => long_code(
            decision::refusal_number(why),
            decision::refusal_record(why) as u64,
        ),
    }
}

// `decision::ask`: number × 2^56 + steps × 2^48 + passes × 2^32 + minute. With 15 the record stands
// in the minute's place. A refused call writes nothing.
pub fn decision_ask(
    file: &[u8],
    owner: u8,
    asker: u8,
    rights: u8,
    at: u32,
    minutes: &mut [u32],
    steps: &mut [u32],
    chain: &mut [u8],
) -> u64
    ensures { AskCoded file.now (request_of owner asker rights at) result minutes.old minutes.new steps.old steps.new chain.old chain.new }
{
    let request = Request {
        owner,
        asker,
        rights,
        at,
    };
    verdict_code(decision::ask(file, request, minutes, steps, chain))
}

// `decision::ask_short`: the same for rights 2. A name of its own in boundary.h.
pub fn decision_short(
    file: &[u8],
    owner: u8,
    asker: u8,
    at: u32,
    minutes: &mut [u32],
    steps: &mut [u32],
    chain: &mut [u8],
) -> u64
    ensures { AskCoded file.now (request_of owner asker 2 at) result minutes.old minutes.new steps.old steps.new chain.old chain.new }
{
    verdict_code(decision::ask_short(file, owner, asker, at, minutes, steps, chain))
}

// `decision::may`: 1 for yes, 0 for no, or number × 65,536.
pub fn decision_may(file: &[u8], owner: u8, asker: u8, at: u32) -> u32
    ensures { MayCoded file.now (request_of owner asker 2 at) result }
{
    shown_code(decision::may(file, owner, asker, at))
}

// `decision::stock`: the sum of 2^k over the keys k that get yes, or number × 65,536.
pub fn decision_stock(file: &[u8], owner: u8, at: u32) -> u32
    ensures { StockCoded file.now owner at result }
{
    stocked_code(decision::stock(file, owner, at))
}

// `decision::settle`: the passes, or number × 2^56 + record. A refused call writes nothing.
pub fn decision_settle(
    file: &[u8],
    owner: u8,
    asker: u8,
    rights: u8,
    at: u32,
    minutes: &mut [u32],
) -> u64
    ensures { SettleCoded file.now (request_of owner asker rights at) result minutes.old minutes.new }
{
    let request = Request {
        owner,
        asker,
        rights,
        at,
    };
    settling_code(decision::settle(file, request, minutes))
}
