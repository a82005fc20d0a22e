// Answers the question on standard input by one line on standard output.
//
// The buffer is longer than any lawful question. A longer input is cut to it: the file's length is
// then wrong all the same, and the numbers below 14 depend on the file's first bytes alone. A read
// that fails is no question, and gets no line.
#![tactic(auto)]

fn main(rt: HostRuntime) {
    let mut question = io::buffer();
    if let Ok(count) = lines::read_input(&rt, &mut question) {
        let _ = lines::answer(&rt, &question[..count]);
    }
}
