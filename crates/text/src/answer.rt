// One line of the text: its call on the lent memory, and its line of output.
ghost use Rattle.std.specs.Prelude.{◌≡◌, ◌+◌, ◌≤◌, length};
ghost use Rattle.text.specs.Lines.{line_at, line_after};
ghost use Rattle.text.specs.Commands.{call_of};
ghost use Rattle.text.specs.Answers.{widest, answer_to, line_answer, Prints, HasRoom, PrintsBy};

use super::command::Command;
use super::printing::print;
use super::reader::line_at;
use octets::writer::Writer;
use uplink::close::close;
use uplink::next::next;
use uplink::open::open;
use uplink::put::put;

// The call of a command, and its line of output; `?` for a line of any other form.
pub fn answer(state: &mut [u8], command: Option<Command>, w: &mut Writer<'_>)
    requires { HasRoom w.old }
    ensures state_after { state.new ≡ (answer_to state.old (call_of command)).bytes }
    ensures prints { PrintsBy w.old (answer_to state.old (call_of command)).line w.new }
{
    let Some(command) = command else {
        return w.bytes(b"?\n");
    };
    match command {
        Command::Open(weight) => print(w, b'O', open(state, weight)),
        Command::Put(slot, ticket, length, reference) => {
            print(w, b'P', put(state, slot, ticket, length, reference))
        }
        Command::Close(slot, ticket) => print(w, b'C', close(state, slot, ticket)),
        Command::Next => print(w, b'N', next(state)),
    }
}

// Where the text and the output go on.
#[derive(Clone, Copy)]
pub struct Places {
    pub at: usize,
    pub place: usize,
}

// Answers the line at a place of the text, and puts its line of output into `out` at `place`. (Bytes and places side by side: docs/PROMISES names the contract.)
pub fn answer_line(state: &mut [u8], text: &[u8], at: usize, out: &mut [u8], place: usize) -> Places
    requires { (at ≤ length text.now) × (place + widest ≤ length out.old) }
    ensures at_value { result.at ≡ line_after text.now at }
    ensures state_after { state.new ≡ (line_answer state.old (line_at text.now at)).bytes }
    ensures prints { Prints out.old place (line_answer state.old (line_at text.now at)).line result.place out.new }
{
    let line = line_at(text, at);
    let mut w = Writer { out, at: place };
    answer(state, line.command, &mut w);
    Places {
        at: line.next,
        place: w.at,
    }
}
