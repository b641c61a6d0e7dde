// Numbers right-aligned in a width.
ghost use Rattle.std.specs.Prelude.{◌≡◌, ◌+◌, ◌-◌, ◌≤◌, ◌<◌, length};
ghost use Rattle.octets.specs.Wrote.{Wrote};
ghost use Rattle.text.specs.Digits.{digits};
ghost use Rattle.page.specs.Puts.{gap, aligned};

use octets::writer::Writer;
use text::writing::put_decimal;

// How many digits a number has.
pub fn digits_of(n: u32) -> usize
    ensures { (result ≡ length (digits n)) × (result < 11) }
{
    n.checked_ilog10().unwrap_or(0) as usize + 1
}

// Spaces: as many as a width has left beside n bytes.
pub fn put_gap(w: &mut Writer<'_>, width: usize, n: usize)
    requires { w.old.at + (width - n) ≤ length w.old.out.now }
    ensures { Wrote w.old (gap width n) w.new }
{
    for _ in n..width {
        w.byte(b' ');
    }
}

// A number right-aligned in a width.
pub fn put_aligned(w: &mut Writer<'_>, width: usize, n: u32)
    requires { w.old.at + length (aligned width (digits n)) ≤ length w.old.out.now }
    ensures { Wrote w.old (aligned width (digits n)) w.new }
{
    put_gap(w, width, digits_of(n));
    put_decimal(w, n);
}
