// Two sites over a scripted line.
//
// Standard input has owner, asker and rights, a byte each, T and the session number in 4 bytes each,
// the length of A's file in 2, the file, the length of B's file in 2, the file, all high byte first, and
// then acts until the input ends:
//
//   0, 1    A, B works
//   2, 3    with an entry number in 2 bytes: A, B writes its next note from that entry on
//   4, 5    with a number in 2 bytes: A's, B's note of that number is brought to the other
//   6, 7    a full exchange, A first, B first
//   8, 9    with 12 bytes: that note is brought to A, to B
//
// After each act one line says what both sites show, and what became of the act.
#![tactic(auto)]

mod desk;
mod mail;

ghost use Rattle.std.specs.Prelude.{◌<◌, length, IfSome};
ghost use Rattle.exchange.specs.Acts.{NumbersAct};

use decision::Request;
use desk::{Desk, Done};
use lines::{Failed, Line, Unopened};
use sites::Site;

// The bytes before the length of A's file.
const HEAD: usize = 11;

// More bytes than the length of a file can say.
const FILE: usize = 65536;

// Fills the lent bytes from standard input, where it has as many. `cases` has the same: a common one
// would be public in `lines`, and no contract could say which bytes it reads.
fn fill(rt: &HostRuntime, bytes: &mut [u8]) -> Option<()> {
    match lines::read_input(rt, bytes) {
        Ok(count) if count == bytes.len() => Some(()),
        _ => None,
    }
}

// The next bytes of standard input, where it has as many.
fn read_bytes<const N: usize>(rt: &HostRuntime) -> Option<[u8; N]> {
    let mut bytes = [0; N];
    fill(rt, &mut bytes)?;
    Some(bytes)
}

// A number in 2 bytes from standard input, high byte first, where it stands there whole.
fn read_number(rt: &HostRuntime) -> Option<usize>
    ensures { IfSome result (λ n. n < 65536) }
{
    let bytes = read_bytes(rt)?;
    Some(usize::from(u16::from_be_bytes(bytes)))
}

// A file from standard input after its length, where it stands there whole: the first of the lent bytes.
fn read_file<'a>(rt: &HostRuntime, lent: &'a mut [u8; FILE]) -> Option<&'a [u8]>
    ensures { IfSome result (λ file. length file.now < 65536) }
{
    let length = read_number(rt)?;
    let file = &mut lent[..length];
    fill(rt, file)?;
    Some(file)
}

// What an act does.
#[derive(Clone, Copy)]
enum Act {
    Works,
    Writes,
    PassesOn,
    Exchanges,
    Brings,
}

// A number that stands for no act.
#[derive(Clone, Copy)]
struct UnknownAct;

impl TryFrom<u8> for Act {
    type Error = UnknownAct;

    ghost try_from_gives = { NumbersAct };

    fn try_from(number: u8) -> Result<Self, UnknownAct> {
        match number {
            0 => Ok(Act::Works),
            1 => Ok(Act::Writes),
            2 => Ok(Act::PassesOn),
            3 => Ok(Act::Exchanges),
            4 => Ok(Act::Brings),
            _ => Err(UnknownAct),
        }
    }
}

// An act of the first site, where what it needs stands whole on standard input.
fn act_first(
    rt: &HostRuntime,
    desk: Desk,
    act: Act,
    first: &mut [u8],
    second: &mut [u8],
) -> Option<Done> {
    let done = match act {
        Act::Works => desk.works(),
        Act::Writes => desk.writes(read_number(rt)?, first),
        Act::PassesOn => desk.passes_on(read_number(rt)?, first, second),
        Act::Exchanges => desk.exchanges(first, second),
        Act::Brings => desk.brings(read_bytes(rt)?, first),
    };
    Some(done)
}

// The next act, where there is one of that number and it stands whole on standard input: the even ones
// are A's, the odd ones B's.
fn next_act(rt: &HostRuntime, desk: Desk, a: &mut [u8], b: &mut [u8]) -> Option<Done> {
    let [byte] = read_bytes::<1>(rt)?;
    let act = Act::try_from(byte / 2).ok()?;
    if byte % 2 == 0 {
        return act_first(rt, desk, act, a, b);
    }
    let Done { desk, outcome } = act_first(rt, desk.swapped(), act, b, a)?;
    Some(Done {
        desk: desk.swapped(),
        outcome,
    })
}

// Prints the line after an act, and gives how many bytes were handed over.
fn tells(rt: &(impl Print + Eprint), done: Done) -> Result<usize, Failed> {
    let Done { desk, outcome } = done;
    let mut line = [0; Line::ROOM];
    let lined = lines::act_line(desk.first, desk.second, outcome, &mut line);
    lines::print(rt, lined, &line)
}

// Prints the line of two sites that were not opened.
fn declines(rt: &(impl Print + Eprint), why: Unopened) {
    let mut line = [0; Line::ROOM];
    let lined = lines::opening_line(why, &mut line);
    let _ = lines::print(rt, lined, &line);
}

// The acts, until the input ends, a number stands for no act, an act does not stand there whole or a
// line cannot be printed. A proved loop has to end, and nothing says that the input does: the loop
// counts its turns, to a number that no run uses up.
fn run(rt: &HostRuntime, mut desk: Desk) {
    let mut a_notes = [0; mail::BYTES];
    let mut b_notes = [0; mail::BYTES];
    for _ in 0..u64::MAX {
        let Some(done) = next_act(rt, desk, &mut a_notes, &mut b_notes) else {
            return;
        };
        if tells(rt, done).is_err() {
            return;
        }
        desk = done.desk;
    }
}

// Opens A and then B on what stands before the acts, or says why not.
fn open_both(head: [u8; HEAD], a_file: &[u8], b_file: &[u8]) -> Result<Desk, Unopened> {
    let [owner, asker, rights, t0, t1, t2, t3, s0, s1, s2, s3] = head;
    let request = Request {
        owner,
        asker,
        rights,
        at: u32::from_be_bytes([t0, t1, t2, t3]),
    };
    let session = u32::from_be_bytes([s0, s1, s2, s3]);
    let a = Site::open(a_file, request, session);
    let b = Site::open(b_file, request, session);
    a.answer.map_err(Unopened::First)?;
    b.answer.map_err(Unopened::Second)?;
    Ok(Desk {
        first: a.site,
        second: b.site,
        first_count: 0,
        second_count: 0,
    })
}

fn main(rt: HostRuntime) {
    let mut a_lent = io::large_buffer();
    let mut b_lent = io::large_buffer();
    let head = read_bytes::<HEAD>(&rt);
    let a_file = read_file(&rt, &mut a_lent);
    let b_file = read_file(&rt, &mut b_lent);
    let (Some(head), Some(a_file), Some(b_file)) = (head, a_file, b_file) else {
        return declines(&rt, Unopened::CutShort);
    };
    match open_both(head, a_file, b_file) {
        Ok(desk) => run(&rt, desk),
        Err(why) => declines(&rt, why),
    }
}
