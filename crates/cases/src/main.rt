// Answers the questions on standard input, each after its length in 2 bytes, high byte first, by one
// line each on standard output. A question that is cut off gets no line, and ends the run; so does a
// read or a write that fails.
#![tactic(auto)]

// Fills the lent bytes from standard input, where it has as many. `exchange` has the same: a common one
// would be public in `lines`, and no contract could say which bytes it reads.
fn fill(rt: &HostRuntime, bytes: &mut [u8]) -> Option<()> {
    match lines::read_input(rt, bytes) {
        Ok(count) if count == bytes.len() => Some(()),
        _ => None,
    }
}

// Reads one question's length and the question, and answers it, where all of it can be done.
fn answer_next(rt: &HostRuntime) -> Option<usize> {
    let mut head = [0u8; 2];
    fill(rt, &mut head)?;
    let length = usize::from(u16::from_be_bytes(head));
    let mut buffer = io::large_buffer();
    let question = &mut buffer[..length];
    fill(rt, question)?;
    lines::answer(rt, question).ok()
}

// A proved loop has to end, and nothing says that the input does. So the loop counts its turns, to a
// number that no run uses up.
fn main(rt: HostRuntime) {
    for _ in 0..u64::MAX {
        if answer_next(&rt).is_none() {
            return;
        }
    }
}
