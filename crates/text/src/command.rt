// What a line asks for.
//
// A line is a letter and its numbers, each after one space, and nothing more. The text between two line feeds is a slice of its own, so that no function
// here reads past its line.
ghost use Rattle.std.specs.Prelude.{◌≡◌, ◌≤◌, length};
ghost use Rattle.text.specs.Commands.{numbers_of, call_of, command_of};
ghost use Rattle.text.specs.Reading.{Reads};

use super::decimal::spaced_at;
use super::lines::line_end;

// A command with its numbers in the order of the line.
#[derive(Clone, Copy)]
pub enum Command {
    Open(u32),
    Put(u32, u32, u32, u32),
    Close(u32, u32),
    Next,
}

// N numbers, each after one space, and nothing more.
fn numbers<const N: usize>(s: &[u8]) -> Option<[u32; N]>
    ensures { result ≡ numbers_of N s.now }
{
    let mut numbers = [0; N];
    let mut at = 0;
    for number in numbers.iter_mut() {
        let (value, next) = spaced_at(s, at)?;
        *number = value;
        at = next;
    }
    if at < s.len() {
        return None;
    }
    Some(numbers)
}

// The command of a line, which is given without its line feed; none for a line of any other form.
pub fn command_in(line: &[u8]) -> Option<Command>
    ensures { call_of result ≡ command_of line.now }
{
    let (letter, rest) = line.split_first()?;
    match letter {
        b'O' => {
            let [weight] = numbers::<1>(rest)?;
            Some(Command::Open(weight))
        }
        b'P' => {
            let [slot, ticket, length, reference] = numbers::<4>(rest)?;
            Some(Command::Put(slot, ticket, length, reference))
        }
        b'C' => {
            let [slot, ticket] = numbers::<2>(rest)?;
            Some(Command::Close(slot, ticket))
        }
        b'N' => rest.is_empty().then_some(Command::Next),
        _ => None,
    }
}

// A line of the text: what it asks for, and the place after it and its line feed.
#[derive(Clone, Copy)]
pub struct Line {
    pub command: Option<Command>,
    pub next: usize,
}

// The line at a place of the text. The last one need not end in a line feed.
pub fn line_from(text: &[u8], at: usize) -> Line
    requires { at ≤ length text.now }
    ensures { Reads text.now at result }
{
    let end = line_end(text, at);
    Line {
        command: command_in(&text[at..end]),
        next: (end + 1).min(text.len()),
    }
}
