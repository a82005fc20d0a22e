// The question: refusals, the verdict, and what the lent places then hold.
ghost use Rattle.std.specs.Prelude.{◌≡◌, ◌≤◌, length, Ok};
ghost use Rattle.wac.specs.Limits.{entries, chain_places, delegate, end_place};
ghost use Rattle.wac.specs.Answers.{first_of};
ghost use Rattle.decision.specs.declared.question.Refused.TheVariants.{File};
ghost use Rattle.decision.specs.Question.{
  request_cases,
  answered_as,
  Admits,
  request_of,
  Granting,
  Counted,
  Answered,
  Judged,
  shown_as,
  Shows,
  Stocks,
  Settles,
  refusal_number,
  refusal_record,
};

use crate::entries::Entry;
use crate::inquiry::Inquiry;
use crate::lens::Lens;
use crate::passing;
use crate::request::Request;
use crate::row::Row;
use crate::writing::LastSteps;
use wac::{Refusal, Table};

// Why a question is refused.
#[derive(Clone, Copy)]
pub enum Refused {
    // The file: 10 to 15.
    File(Refusal),
    // Owner or asker above 15.
    Keys,
    // Rights 0 or above 15.
    Rights,
    // T is 0.
    Minute,
    // A lent place shorter than named.
    Places,
}

impl From<Refusal> for Refused {
    ghost from_gives = { λ why refused. refused ≡ File why };

    fn from(why: Refusal) -> Refused {
        Refused::File(why)
    }
}

// What a question that is not refused answers.
#[derive(Clone, Copy)]
pub enum Verdict {
    // Granted, and a shortest best chain has at most 200 steps: minute, steps, passes.
    Granted(u32, u32, u64),
    // No chain: passes.
    NoChain(u64),
    // Granted, and every best chain has more than 200 steps: minute, passes.
    GrantedLong(u32, u64),
}

// The request's refusals.
#[tactic(auto, unfolding(crate::specs::Question::request_cases, wac::specs::Answers::first_of))]
fn admit_request(request: Request) -> Result<(), Refused>
    ensures { answered_as result ≡ first_of (request_cases request) tt }
{
    if Table::KEYS <= usize::from(request.owner) {
        return Err(Refused::Keys);
    }
    if Table::KEYS <= usize::from(request.asker) {
        return Err(Refused::Keys);
    }
    if request.rights == 0 {
        return Err(Refused::Rights);
    }
    if Table::ALL_RIGHTS < usize::from(request.rights) {
        return Err(Refused::Rights);
    }
    if request.at == 0 {
        return Err(Refused::Minute);
    }
    Ok(())
}

// Whether a file and a request are in order, the file's refusals first: the file's count, or the refusal.
pub fn admit(file: &[u8], request: Request) -> Result<usize, Refused>
    ensures { Admits file.now request result }
{
    let count = wac::check(file)?;
    admit_request(request)?;
    Ok(count)
}

// The entry of which the question asks: the owner's, by which it may delegate.
fn owner_entry(request: Request) -> Entry
    ensures { result ≡ record { key = request.owner; symbol = delegate; place = end_place } }
{
    Entry {
        key: usize::from(request.owner),
        symbol: Table::DELEGATE,
        place: Table::END,
    }
}

// The steps of a granted question, and its chain: the verdict.
fn judge_steps(
    inquiry: Inquiry<'_>,
    minute: u32,
    passes: u64,
    steps: &mut [u32],
    chain: &mut [u8],
) -> Verdict
    requires { Granting inquiry.file.now inquiry.request inquiry.count minute × (length steps.old ≡ entries) × (chain_places ≤ length chain.old) }
    ensures { Counted inquiry.entry.file.now inquiry.entry.request minute passes (Ok result) steps.old steps.new chain.old chain.new }
{
    let lens = Lens::Steps(minute);
    inquiry.start_by(lens, steps);
    inquiry.settle_by(lens, steps);
    let last = LastSteps {
        inquiry,
        floor: minute,
        table: steps,
    };
    let entry = owner_entry(inquiry.request);
    let fewest = last.steps_at(entry);
    if Lens::UNCOUNTED <= fewest {
        return Verdict::GrantedLong(minute, passes);
    }
    last.expand_entry(chain, 0, entry);
    Verdict::Granted(minute, fewest, passes)
}

// The verdict on a question in order.
fn judge(inquiry: Inquiry<'_>, minutes: &mut [u32], steps: &mut [u32], chain: &mut [u8]) -> Verdict
    requires { (length minutes.old ≡ entries) × (length steps.old ≡ entries) × (chain_places ≤ length chain.old) }
    ensures { Answered inquiry.entry.file.now inquiry.entry.request (Ok result) minutes.old minutes.new steps.old steps.new chain.old chain.new }
{
    let lens = Lens::Minutes;
    inquiry.start_by(lens, minutes);
    let passes = inquiry.settle_by(lens, minutes);
    let settled = Row {
        lens,
        table: minutes,
    };
    let minute = settled.weight_at(owner_entry(inquiry.request));
    if minute == 0 {
        passing::fill(steps, Lens::UNCOUNTED);
        return Verdict::NoChain(passes);
    }
    judge_steps(inquiry, minute, passes, steps, chain)
}

// The question. Any bytes and any numbers; a refused call leaves every lent place as it was. The lent
// places are three and no struct: two of them are shortened for `judge`, and `Judged` says of each what it
// held and what it holds.
pub fn ask(
    file: &[u8],
    request: Request,
    minutes: &mut [u32],
    steps: &mut [u32],
    chain: &mut [u8],
) -> Result<Verdict, Refused>
    ensures { Judged file.now request result minutes.old minutes.new steps.old steps.new chain.old chain.new }
{
    let count = admit(file, request)?;
    if minutes.len() < Table::ENTRIES {
        return Err(Refused::Places);
    }
    if steps.len() < Table::ENTRIES {
        return Err(Refused::Places);
    }
    if chain.len() < Table::CHAIN_PLACES {
        return Err(Refused::Places);
    }
    let inquiry = Inquiry {
        file,
        count,
        request,
    };
    let verdict = judge(
        inquiry,
        &mut minutes[..Table::ENTRIES],
        &mut steps[..Table::ENTRIES],
        chain,
    );
    Ok(verdict)
}

// The short form names no rights and asks to open, so it takes no `Request`, nor do the screen and the list.
pub fn ask_short(
    file: &[u8],
    owner: u8,
    asker: u8,
    at: u32,
    minutes: &mut [u32],
    steps: &mut [u32],
    chain: &mut [u8],
) -> Result<Verdict, Refused>
    ensures { Judged file.now (request_of owner asker 2 at) result minutes.old minutes.new steps.old steps.new chain.old chain.new }
{
    let request = Request {
        owner,
        asker,
        rights: 2,
        at,
    };
    ask(file, request, minutes, steps, chain)
}

// The read screen: a yes or no for one asker, by the short form. Yes is answer 0 or 2. The error is the
// refusal's number alone and no `Refused`, which may have a record: `Shows` says nothing of a record, and by
// `shows_unique` it says all that comes back.
pub fn may(file: &[u8], owner: u8, asker: u8, at: u32) -> Result<bool, u8>
    ensures { Shows file.now (request_of owner asker 2 at) (shown_as result) }
{
    let mut minutes = [0u32; Table::ENTRIES];
    let mut steps = [0u32; Table::ENTRIES];
    let mut chain = [0u8; Table::CHAIN_PLACES];
    match ask_short(file, owner, asker, at, &mut minutes, &mut steps, &mut chain) {
        Ok(Verdict::Granted(_, _, _)) => Ok(true),
        Ok(Verdict::NoChain(_)) => Ok(false),
        Ok(Verdict::GrantedLong(_, _)) => Ok(true),
        Err(why) => Err(refusal_number(why)),
    }
}

// The stock list of an owner at a minute, by the short form: a yes or no for each of the 16 keys, or the
// refusal's number, as the read screen tells it (`stocks_unique`). No From leads from usize to a byte, and
// a TryFrom would have to be unwrapped: `as`, which is proved to lose nothing.
pub fn stock(file: &[u8], owner: u8, at: u32) -> Result<[bool; Table::KEYS], u8>
    ensures { Stocks file.now owner at result }
{
    let mut keys = [false; Table::KEYS];
    for key in 0..Table::KEYS {
        keys[key] = may(file, owner, key as u8, at)?;
    }
    Ok(keys)
}

// Passes over a given table of minutes until nothing changes, from any numbers in it: their number, or the
// refusal.
pub fn settle(file: &[u8], request: Request, table: &mut [u32]) -> Result<u64, Refused>
    ensures { Settles file.now request result table.old table.new }
{
    let count = admit(file, request)?;
    if table.len() < Table::ENTRIES {
        return Err(Refused::Places);
    }
    let inquiry = Inquiry {
        file,
        count,
        request,
    };
    Ok(inquiry.settle_by(Lens::Minutes, table))
}

// The refusal's number. A function and no From: a refusal has two numbers, this and its record's.
pub fn refusal_number(why: Refused) -> u8
    ensures { result ≡ refusal_number why }
{
    match why {
        Refused::File(file) => wac::number_of(file),
        Refused::Keys => 20,
        Refused::Rights => 21,
        Refused::Minute => 22,
        Refused::Places => 23,
    }
}

// The record's number that the refusal returns, and 0 where it returns none: C's codes and the printed lines
// have 0 there (`refusal_record`).
pub fn refusal_record(why: Refused) -> usize
    ensures { result ≡ refusal_record why }
{
    match why {
        Refused::File(file) => wac::record_of(file),
        _ => 0,
    }
}
