// Lent bytes with the place where the next one is written: what a text, a page or an image is written with.
//
// A function that writes a part takes `w: &mut Writer` and ensures `Wrote w.old PART w.new`: PART stands from the writer's place on, the place is behind
// it, and the writer still holds the same lent bytes. A function that is lent `out: &mut [u8]` makes `let mut w = Writer { out, at };`, writes with it and
// gives `w.at`: from Wrote its caller gets `Written out.old at PART result out.new`. How the proofs go is in proofs/WroteLaws.antt.
ghost use Rattle.std.specs.Prelude.{◌≡◌, ℕ, ◌+◌, ◌<◌, ◌≤◌, length, ◌∷◌, []};
ghost use Rattle.octets.specs.Wrote.{Wrote};

#[derive(Drop)]
pub struct Writer<'a> {
    pub out: &'a mut [u8],
    pub at: usize,
}

impl<'a> Writer<'a> {
    // One byte is written.
    pub fn byte(&mut self, b: u8)
        requires { self.old.at < length self.old.out.now }
        ensures { Wrote self.old (b ∷ []) self.new }
    {
        self.out[self.at] = b;
        self.at += 1;
    }

    // The bytes of s are written.
    pub fn bytes(&mut self, s: &[u8])
        requires { self.old.at + length s.now ≤ length self.old.out.now }
        ensures { Wrote self.old s.now self.new }
    {
        let end = self.at + s.len();
        self.out[self.at..end].copy_from_slice(s);
        self.at = end;
    }
}
