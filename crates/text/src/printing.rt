// The line of an answer: the letter and the fields, or `R` and the number.
ghost use Rattle.std.specs.Prelude.{◌≤◌, length};
ghost use Rattle.answers.specs.Told.{answered};
ghost use Rattle.text.specs.Writing.{answer_line};
ghost use Rattle.text.specs.Answers.{said, fields_most, HasRoom, PrintsBy};

use super::writing::put_line;
use answers::Refusal;
use octets::writer::Writer;
use uplink::fields::Fields;

// The line of a letter and few numbers: it is short, since a number has 32 bits.
fn print_line(w: &mut Writer<'_>, letter: u8, ns: &[u32])
    requires { HasRoom w.old × (length ns.now ≤ fields_most) }
    ensures { PrintsBy w.old (answer_line letter ns.now) w.new }
{
    put_line(w, letter, ns);
}

// The line of what a call answered.
pub fn print<T: Fields<N>, const N: usize>(w: &mut Writer<'_>, letter: u8, told: Result<T, Refusal>)
    requires { HasRoom w.old × (N ≤ fields_most) }
    ensures { PrintsBy w.old (said letter T.numbers (answered told)) w.new }
{
    match told {
        Ok(given) => print_line(w, letter, &given.fields()),
        Err(why) => print_line(w, b'R', &[u32::from(why)]),
    }
}
