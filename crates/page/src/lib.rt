// The page: what support has on paper at a send, put into lent bytes.
//
// specs/Page.antt says what a page is, line by line; the contracts here say that exactly those bytes are put. The choice is made by the plain engine, and the
// cells are those of its matrix.
#![tactic(auto)]

ghost use Rattle.std.specs.Prelude.{◌≡◌, false, ◌+◌, ◌^◌, ◌≤◌, ◌<◌, length};
ghost use Rattle.lists.specs.Tests.{is_empty};
ghost use Rattle.spread.specs.Limits.{columns};
ghost use Rattle.rules.specs.State.{weights};
ghost use Rattle.memory.specs.Reading.{state_of};
ghost use Rattle.memory.specs.Search.{RowsWithin};
ghost use Rattle.uplink.specs.Holds.{TakesSteps};
ghost use Rattle.octets.specs.Wrote.{Wrote};
ghost use Rattle.text.specs.Answers.{Stands};
ghost use Rattle.text.specs.Commands.{command_of};
ghost use Rattle.text.specs.Lines.{line_at};
ghost use Rattle.page.specs.Page.{term_shown, row_lines, page_of, page_on, page_under, page_room};
ghost use Rattle.page.specs.InNumbers.{line_in, scanned_in, head_in, Taken};

use bits::trailing_of;
use memory::layout::Base;
use memory::point::{Scan, load_scan};
use memory::rows::row_count;
use octets::writer::Writer;
use plain::choose::choose;
use plain::matrix::{Matrix, fill};
use rules::SLOTS;
use spread::COLUMNS;
use spread::jump::column_at;
use text::command::Command;
use text::reader::line_at;
use uplink::admitted::admitted;
use visits::choose::Chosen;

// Room for any page: two lines and one for each slot, none above 80 bytes and three a column.
pub const ROOM: usize = (SLOTS + 2) * (80 + 3 * COLUMNS as usize);

pub mod aligned; // aligned.rt: numbers right-aligned in a width
pub mod head; // head.rt: the two lines over the rows
pub mod rows; // rows.rt: a line for each row

// One more than the term at P, and 0 where P is 0: "the term is one more than the number of trailing zero bits of the position".
fn term_shown(position: u32) -> u32
    requires { position < 2 ^ columns }
    ensures { result ≡ term_shown position }
{
    if position == 0 {
        return 0;
    }
    trailing_of(position) + 2
}

// One more than the column being scanned, and 0 for none: that of the term which this call took, else the one noted, where slots were still to visit.
fn scanned(scan: Scan, chosen: Chosen) -> u32
    requires { Taken chosen }
    ensures { result ≡ scanned_in scan chosen }
{
    if chosen.terms != 0 {
        return column_at(u32::from(chosen.order), chosen.scan.position as u32) + 1;
    }
    if scan.mask != 0 {
        return u32::from(scan.column) + 1;
    }
    0
}

// The two lines over the rows.
fn put_head(w: &mut Writer<'_>, scan: Scan, chosen: Chosen)
    requires { Taken chosen × (w.old.at + length (head_in scan chosen) ≤ length w.old.out.now) }
    ensures { Wrote w.old (head_in scan chosen) w.new }
{
    let order = u32::from(chosen.order);
    let position = chosen.scan.position as u32;
    let column = scanned(scan, chosen);
    head::put_first(w, order, position, term_shown(position), column);
    head::put_second(w, order, column);
}

// The page of the base of a memory that takes calls and has rows, as what Next does on it. The rows' lines are from a matrix of their own.
fn page_of(state: &Base, out: &mut [u8]) -> usize
    requires { TakesSteps state.now × (is_empty (state_of state.now).rows ≡ false) × (page_room ≤ length out.old) }
    ensures { Stands (page_of (state_of state.now)) result out.new }
{
    let scan = load_scan(state);
    let chosen = choose(state, scan);
    let mut w = Writer { out, at: 0 };
    put_head(&mut w, scan, chosen);
    let mut matrix: Matrix = [[0; SLOTS]; COLUMNS as usize];
    fill(state, &mut matrix);
    rows::put_rows(&mut w, state, &matrix, chosen);
    w.at
}

// The page of a lent memory, as what Next does on it, at the start of `out`; its length is the answer, and 0 where Next is refused.
pub fn page(state: &[u8], out: &mut [u8]) -> usize
    requires { page_room ≤ length out.old }
    ensures { Stands (page_on state.now) result out.new }
{
    if admitted(state).is_err() {
        return 0;
    }
    page_on(state.first_chunk().unwrap(), out)
}

// The page of the base of a memory that takes calls, and none where there are no rows.
fn page_on(state: &Base, out: &mut [u8]) -> usize
    requires { TakesSteps state.now × (page_room ≤ length out.old) }
    ensures { Stands (page_of (state_of state.now)) result out.new }
{
    if row_count(state) == 0 {
        return 0;
    }
    page_of(state, out)
}

// The page under the line at a place of the text: where that line is `N`, else none. The memory is that before the line's call.
pub fn under(state: &[u8], text: &[u8], at: usize, out: &mut [u8]) -> usize
    requires { (at ≤ length text.now) × (page_room ≤ length out.old) }
    ensures { Stands (page_under state.now (command_of (line_at text.now at))) result out.new }
{
    if let Some(Command::Next) = line_at(text, at).command {
        return page(state, out);
    }
    0
}
