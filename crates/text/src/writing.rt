// Decimals and lines written with a writer.
ghost use Rattle.std.specs.Prelude.{◌∷◌, ◌+◌, ◌≤◌, length};
ghost use Rattle.octets.specs.Writing.{Written};
ghost use Rattle.octets.specs.Wrote.{Wrote};
ghost use Rattle.text.specs.Digits.{digits};
ghost use Rattle.text.specs.Commands.{spaced};
ghost use Rattle.text.specs.Writing.{answer_line};

use octets::writer::Writer;

// The digits of a number at the front of lent bytes, and how many they are. No writer's place is moved for each: every move would wait for the one before it.
fn digits_into(out: &mut [u8], n: u32) -> usize
    requires { length (digits n) ≤ length out.old }
    ensures { Written out.old 0 (digits n) result out.new }
{
    if n < 10 {
        out[0] = b'0' + n as u8;
        return 1;
    }
    let count = digits_into(out, n / 10);
    out[count] = b'0' + (n % 10) as u8;
    count + 1
}

// A number in plain decimal: at most 10 bytes.
pub fn put_decimal(w: &mut Writer<'_>, n: u32)
    requires { w.old.at + length (digits n) ≤ length w.old.out.now }
    ensures { Wrote w.old (digits n) w.new }
{
    let at = w.at;
    w.at += digits_into(&mut w.out[at..], n);
}

// A space and a number.
pub fn put_spaced(w: &mut Writer<'_>, n: u32)
    requires { w.old.at + length (32 ∷ digits n) ≤ length w.old.out.now }
    ensures { Wrote w.old (32 ∷ digits n) w.new }
{
    w.byte(b' ');
    put_decimal(w, n);
}

// Each number after a space.
pub fn put_numbers(w: &mut Writer<'_>, ns: &[u32])
    requires { w.old.at + length (spaced ns.now) ≤ length w.old.out.now }
    ensures { Wrote w.old (spaced ns.now) w.new }
{
    for n in ns {
        put_spaced(w, *n);
    }
}

// The line of an answer: a letter, its numbers, and the line feed. A number takes at most 11 bytes.
pub fn put_line(w: &mut Writer<'_>, letter: u8, ns: &[u32])
    requires { w.old.at + length (answer_line letter ns.now) ≤ length w.old.out.now }
    ensures { Wrote w.old (answer_line letter ns.now) w.new }
{
    w.byte(letter);
    put_numbers(w, ns);
    w.byte(b'\n');
}
