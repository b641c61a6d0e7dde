// The two lines over the rows: order, P, term and column, and the columns' numbers.
//
// A number that there may not be (the term, the column being scanned) is held as one more than it, and as 0 where there is none.
ghost use Rattle.std.specs.Prelude.{◌++◌, ◌∷◌, ◌+◌, ◌≤◌, ◌<◌, length};
ghost use Rattle.spread.specs.Limits.{columns};
ghost use Rattle.octets.specs.Wrote.{Wrote};
ghost use Rattle.text.specs.Digits.{digits};
ghost use Rattle.page.specs.Puts.{aligned};
ghost use Rattle.page.specs.Page.{or_dash, first_line, column_text, columns_line, down};

use super::aligned::{digits_of, put_aligned, put_gap};
use octets::writer::Writer;
use text::writing::put_decimal;

// A word and its number.
fn put_number(w: &mut Writer<'_>, word: &[u8], n: u32)
    requires { w.old.at + length (word.now ++ digits n) ≤ length w.old.out.now }
    ensures { Wrote w.old (word.now ++ digits n) w.new }
{
    w.bytes(word);
    put_decimal(w, n);
}

// A number, or `-` where there is none.
fn put_or_dash(w: &mut Writer<'_>, shown: u32)
    requires { w.old.at + length (or_dash shown) ≤ length w.old.out.now }
    ensures { Wrote w.old (or_dash shown) w.new }
{
    match shown.checked_sub(1) {
        Some(n) => put_decimal(w, n),
        None => w.byte(b'-'),
    }
}

// A word and its number, if there is one.
fn put_shown(w: &mut Writer<'_>, word: &[u8], shown: u32)
    requires { w.old.at + length (word.now ++ or_dash shown) ≤ length w.old.out.now }
    ensures { Wrote w.old (word.now ++ or_dash shown) w.new }
{
    w.bytes(word);
    put_or_dash(w, shown);
}

// `|  order k   P p   term t   column c`
pub fn put_first(w: &mut Writer<'_>, order: u32, position: u32, term: u32, column: u32)
    requires { w.old.at + length (first_line order position term column) ≤ length w.old.out.now }
    ensures { Wrote w.old (first_line order position term column) w.new }
{
    put_number(w, b"|  order ", order);
    put_number(w, b"   P ", position);
    put_shown(w, b"   term ", term);
    put_shown(w, b"   column ", column);
    w.byte(b'\n');
}

// The number of the column being scanned: `>` stands before it.
fn put_scanned(w: &mut Writer<'_>, n: u32)
    requires { w.old.at + length (aligned 3 (62 ∷ digits n)) ≤ length w.old.out.now }
    ensures { Wrote w.old (aligned 3 (62 ∷ digits n)) w.new }
{
    put_gap(w, 3, digits_of(n) + 1);
    w.byte(b'>');
    put_decimal(w, n);
}

// A column's number.
fn put_column(w: &mut Writer<'_>, n: u32, column: u32)
    requires { (n < columns) × (w.old.at + length (column_text column n) ≤ length w.old.out.now) }
    ensures { Wrote w.old (column_text column n) w.new }
{
    if n + 1 == column {
        return put_scanned(w, n);
    }
    put_aligned(w, 3, n);
}

// The columns' numbers, the highest first.
fn put_columns(w: &mut Writer<'_>, order: u32, column: u32)
    requires { (order ≤ columns) × (w.old.at + length (down (column_text column) order) ≤ length w.old.out.now) }
    ensures { Wrote w.old (down (column_text column) order) w.new }
{
    for n in (0..order).rev() {
        put_column(w, n, column);
    }
}

// `|    slot   weight  ` and the columns' numbers.
pub fn put_second(w: &mut Writer<'_>, order: u32, column: u32)
    requires { (order ≤ columns) × (w.old.at + length (columns_line order column) ≤ length w.old.out.now) }
    ensures { Wrote w.old (columns_line order column) w.new }
{
    w.bytes(b"|    slot   weight  ");
    put_columns(w, order, column);
    w.byte(b'\n');
}
