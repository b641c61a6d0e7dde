// The program: an input's whole output.
//
// The output stands in one buffer, long enough for any input that is answered, so that one contract says all of it: `lift` of the input. What is left to
// the program's `main` is to read and to write.
ghost use Rattle.std.specs.Prelude.{◌≡◌, ◌≤◌, ◌<◌, length, take};
ghost use Rattle.text.specs.Lines.{lines_of};
ghost use Rattle.text.specs.Answers.{output, most, lift, room_for, Stands};

use super::answer::{Places, answer_line};
use memory::layout::LENGTH;
use octets::writer::Writer;
use rules::FALLING;
use uplink::open::start;

// "Input above 65,536 bytes prints only `? input`."
pub const MOST: usize = 65536;

// The zeros that the output is written over: 40 bytes for each byte of the largest input, and 40 more (`room_for`).
pub fn room() -> [u8; 2621480]
    ensures { room_for most ≡ length result }
{
    [0; 2621480]
}

// Answers every line of the text over the lent memory. The output stands at the start of `out`; its length is the answer.
fn answer_all(state: &mut [u8], text: &[u8], out: &mut [u8]) -> usize
    requires { room_for (length text.now) ≤ length out.old }
    ensures { Stands (output state.old (lines_of text.now)) result out.new }
{
    let mut places = Places { at: 0, place: 0 };
    // By `answer_line`, as matrix answers its lines (docs/DECISIONS 76), and so not over a reader's `next_line`. A while: each turn goes on behind a whole line, and a
    // `for` has no place that a line moves.
    while places.at < text.len() {
        places = answer_line(state, text, places.at, out, places.place);
    }
    places.place
}

// What is printed for the first n bytes of `input`: their lines answered from the fresh state on, or `? input`. There is room in `input` for one byte
// more than is answered, so that a longer input shows. The output stands at the start of `out`; its length is the answer. (Bytes and how many count, side by side: docs/PROMISES
// names the contract.)
pub fn run(input: &[u8], n: usize, out: &mut [u8]) -> usize
    requires { (most < length input.now) × (n ≤ length input.now) × (room_for most ≤ length out.old) }
    ensures { Stands (lift (take n input.now)) result out.new }
{
    if n > MOST {
        let mut w = Writer { out, at: 0 };
        w.bytes(b"? input\n");
        return w.at;
    }
    let mut state = [0u8; LENGTH];
    let _ = start(&mut state, u32::from(FALLING));
    answer_all(&mut state, &input[..n], out)
}
