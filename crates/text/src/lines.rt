// Where a line ends.
ghost use Rattle.std.specs.Prelude.{◌≡◌, ◌≤◌, eqb, length, position};
ghost use Rattle.text.specs.Lines.{line_end};

// The place of the first line feed of the text, if it has one.
fn feed_in(s: &[u8]) -> Option<usize>
    ensures { result ≡ position (λ b. eqb b 10) s.now }
{
    s.iter().position(|&b| b == b'\n')
}

// The place of the next line feed from `at` on, or the end of the text.
pub fn line_end(s: &[u8], at: usize) -> usize
    requires { at ≤ length s.now }
    ensures value { result ≡ line_end s.now at }
    ensures lower_bound { (at ≤ result) × (result ≤ length s.now) }
{
    match feed_in(&s[at..]) {
        Some(n) => at + n,
        None => s.len(),
    }
}
