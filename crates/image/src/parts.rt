// Numbers side by side in bytes.
ghost use Rattle.std.specs.Prelude.{◌≡◌, ◌+◌, ◌≤◌, length};
ghost use Rattle.octets.specs.Wrote.{Wrote};
ghost use Rattle.image.specs.Parts.{high_first, widths, laid, span};

use octets::writer::Writer;

// A number, and the bytes that it takes: the highest first; in none, nothing.
#[derive(Clone, Copy)]
pub struct Part {
    pub width: usize,
    pub number: u64,
}

impl Part {
    pub fn new<N: Into<u64>>(width: usize, number: N) -> Part
        ensures { (result.width ≡ width) × N.converts number result.number }
    {
        Part {
            width,
            number: number.into(),
        }
    }
}

// A number in so many bytes, the last first.
pub fn put_number(w: &mut Writer<'_>, width: usize, number: u64)
    requires { w.old.at + width ≤ length w.old.out.now }
    ensures { Wrote w.old (high_first width number) w.new }
{
    let mut rest = number;
    for k in (0..width).rev() {
        w.out[w.at + k] = (rest % 256) as u8;
        rest /= 256;
    }
    w.at += width;
}

// Parts, one after the other.
pub fn put_parts(w: &mut Writer<'_>, parts: &[Part])
    requires { w.old.at + span (widths parts.now) ≤ length w.old.out.now }
    ensures { Wrote w.old (laid parts.now) w.new }
{
    for part in parts {
        put_number(w, part.width, part.number);
    }
}
