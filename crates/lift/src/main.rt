// The command program: standard input, one command a line, and a line of output for each.
//
// It reads, makes one call, and writes. The call's contract says what the output is for the bytes that were read (text/src/program.rt); that these
// are the input's first bytes, and that the output's go to standard output, is the operating system's part. Nothing is allocated: the output has 2.5 MB
// of the stack. A read that fails counts as the end of the input, and a write that fails ends the program.
#![tactic(auto)]

use text::program::{MOST, room, run};

fn main() {
    // One byte more than is answered.
    let mut input = [0u8; MOST + 1];
    let n = io::read_full(0, &mut input);
    let mut out = room();
    let length = run(&input, n, &mut out);
    io::write_all(1, &out[..length]);
}
