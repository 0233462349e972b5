// Reads a stored form and its memory from standard input, runs 1,000 steps and prints one line.
#![tactic(auto)]

mod answer;

fn main() {
    // A form, sixteen frames and a byte: what a longer input holds changes nothing.
    let mut input = [0u8; 65638];
    let n = io::read_full(0, &mut input);
    let shown = answer::show(&mut input[..n]);
    let line = line::line_for(shown.into());
    io::write_all(1, line.as_slice());
}
