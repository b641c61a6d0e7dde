// The rows' lines, in joining order: slot, weight, the row's cells of the matrix, and whether it is visited.
ghost use Rattle.std.specs.Prelude.{◌+◌, ◌≤◌, ◌<◌, eqb, length};
ghost use Rattle.bits.specs.Bit.{bit};
ghost use Rattle.spread.specs.Limits.{columns};
ghost use Rattle.rules.specs.Numbers.{slots};
ghost use Rattle.rules.specs.State.{weights};
ghost use Rattle.memory.specs.Reading.{state_of};
ghost use Rattle.memory.specs.Search.{RowsWithin};
ghost use Rattle.octets.specs.Wrote.{Wrote};
ghost use Rattle.plain.specs.Matrix.{MatrixOf};
ghost use Rattle.page.specs.Page.{cell_text, mark, row_start, row_line, row_lines};
ghost use Rattle.page.specs.InNumbers.{cells_at, mark_in, line_in};

use super::aligned::put_aligned;
use bits::in_mask;
use memory::layout::Base;
use memory::rows::row_count;
use memory::search::{row_at, weight_of_row};
use octets::writer::Writer;
use plain::matrix::Matrix;
use visits::choose::Chosen;

// One cell: `1` or `.`. The byte is chosen and not the text: no machine foresees a matrix's bits.
fn put_cell(w: &mut Writer<'_>, cell: u8)
    requires { w.old.at + length (cell_text cell) ≤ length w.old.out.now }
    ensures { Wrote w.old (cell_text cell) w.new }
{
    w.bytes(b"  ");
    w.byte(if cell == 1 { b'1' } else { b'.' });
}

// A row's cells, the highest column first.
fn put_cells(w: &mut Writer<'_>, matrix: &Matrix, row: usize, order: usize)
    requires { (row < slots) × (order ≤ columns)
        × (w.old.at + length (cells_at matrix.now row order) ≤ length w.old.out.now) }
    ensures { Wrote w.old (cells_at matrix.now row order) w.new }
{
    for column in (0..order).rev() {
        put_cell(w, matrix[column][row]);
    }
}

// `   visit` for the slot that sends, `   to visit` for one still to visit, and nothing for any other.
fn put_mark(w: &mut Writer<'_>, slot: usize, sends: usize, left: u64)
    requires { (slot < slots) × (w.old.at + length (mark sends (λ i. eqb (bit i left) 1) slot) ≤ length w.old.out.now) }
    ensures { Wrote w.old (mark sends (λ i. eqb (bit i left) 1) slot) w.new }
{
    if slot == sends {
        w.bytes(b"   visit");
    } else if in_mask(left, slot as u32) {
        w.bytes(b"   to visit");
    }
}

// The slot and the weight.
fn put_start(w: &mut Writer<'_>, slot: usize, weight: u32)
    requires { (slot < slots) × (w.old.at + length (row_start slot weight) ≤ length w.old.out.now) }
    ensures { Wrote w.old (row_start slot weight) w.new }
{
    w.byte(b'|');
    put_aligned(w, 8, slot as u32);
    put_aligned(w, 9, weight);
    w.bytes(b"  ");
}

// The line of a row that holds a slot of a weight.
fn put_row(
    w: &mut Writer<'_>,
    matrix: &Matrix,
    row: usize,
    slot: usize,
    weight: u32,
    chosen: Chosen,
)
    requires { (row < slots) × (slot < slots) × (chosen.order ≤ columns)
        × (w.old.at + length (row_line slot weight (cells_at matrix.now row chosen.order) (mark_in chosen slot)) ≤ length w.old.out.now) }
    ensures { Wrote w.old (row_line slot weight (cells_at matrix.now row chosen.order) (mark_in chosen slot)) w.new }
{
    put_start(w, slot, weight);
    put_cells(w, matrix, row, usize::from(chosen.order));
    put_mark(w, slot, chosen.slot, chosen.scan.mask);
    w.byte(b'\n');
}

// The lines of all rows.
pub fn put_rows(w: &mut Writer<'_>, state: &Base, matrix: &Matrix, chosen: Chosen)
    requires { RowsWithin state.now × MatrixOf state.now matrix.now × (chosen.order ≤ columns)
        × (w.old.at + length (row_lines (line_in (weights (state_of state.now).channels) chosen) (state_of state.now).rows) ≤ length w.old.out.now) }
    ensures { Wrote w.old (row_lines (line_in (weights (state_of state.now).channels) chosen) (state_of state.now).rows) w.new }
{
    for row in 0..row_count(state) {
        let slot = row_at(state, row);
        let weight = weight_of_row(state, row);
        put_row(w, matrix, row, slot, weight, chosen);
    }
}
