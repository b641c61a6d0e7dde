// A reader: the command text and its place in it.
//
// Document 01: "The text is walked by a reader that holds the command text and its place." Each method is thin; the work is done by the functions of the
// other files, on a slice and a place. `line_at` has plain parameters: whoever calls it sees no reader.
ghost use Rattle.std.specs.Prelude.{◌≡◌, ◌≤◌, length};
ghost use Rattle.text.specs.Reading.{Reads, Moves};

use super::command::{Line, line_from};

#[derive(Clone, Copy)]
pub struct Reader<'a> {
    pub text: &'a [u8],
    pub at: usize,
}

impl<'a> Reader<'a> {
    // At the start of the text.
    pub fn new(text: &'a [u8]) -> Reader<'a>
        ensures { (result.text ≡ text.entry) × (result.at ≡ 0) }
    {
        Reader { text, at: 0 }
    }

    // The same text, at another place.
    pub fn moved(self, at: usize) -> Reader<'a>
        ensures { (result.text ≡ self.entry.text) × (result.at ≡ at) }
    {
        Reader { at, ..self }
    }

    // The line at the reader's place.
    pub fn line(self) -> Line
        requires { self.at ≤ length self.text.now }
        ensures { Reads self.entry.text.now self.entry.at result }
    {
        line_from(self.text, self.at)
    }

    // The line at the reader's place, which goes on behind it; none where the text is at its end.
    pub fn next_line(&mut self) -> Option<Line>
        requires { self.old.at ≤ length self.old.text.now }
        ensures { Moves self.old result self.new }
    {
        if self.at >= self.text.len() {
            return None;
        }
        let line = self.line();
        self.at = line.next;
        Some(line)
    }
}

// The line at a place of the text, by a reader.
pub fn line_at(text: &[u8], at: usize) -> Line
    requires { at ≤ length text.now }
    ensures { Reads text.now at result }
{
    Reader::new(text).moved(at).line()
}

#[cfg(test)]
mod tests {
    use super::super::command::Command;
    use super::Reader;

    // Each line of a text is given once, and the reader stands behind it: an empty one, one of no form, a last one without a line feed. Then none, however often
    // one is asked for.
    #[test]
    fn each_line_once(rt: HostRuntime) {
        let mut reader = Reader::new(b"O 7\n\nC 63 5\nN?\nN");
        let first = reader.next_line().and_then(|line| line.command);
        assert!(rt; matches!(first, Some(Command::Open(7))) && reader.at == 4);
        let empty = reader.next_line();
        assert!(rt; empty.is_some_and(|line| line.command.is_none()) && reader.at == 5);
        let third = reader.next_line().and_then(|line| line.command);
        assert!(rt; matches!(third, Some(Command::Close(63, 5))) && reader.at == 12);
        let other = reader.next_line();
        assert!(rt; other.is_some_and(|line| line.command.is_none()) && reader.at == 15);
        let last = reader.next_line().and_then(|line| line.command);
        assert!(rt; matches!(last, Some(Command::Next)) && reader.at == 16);
        assert!(rt; reader.next_line().is_none() && reader.at == 16);
        assert!(rt; reader.next_line().is_none() && reader.at == 16);
    }
}
