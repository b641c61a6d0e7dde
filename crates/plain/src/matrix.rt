// The weight matrix of document 000: row r is the r-th row in joining order, column c the bits of place c of the rows' weights.
//
// A cell is a byte, 1 or 0. The cells behind the last row are not read.
ghost use Rattle.std.specs.Prelude.{◌≡◌, true, false, ℕ, ◌≤◌, ◌<◌};
ghost use Rattle.bits.specs.Bit.{bit};
ghost use Rattle.spread.specs.Limits.{columns};
ghost use Rattle.rules.specs.Numbers.{slots};
ghost use Rattle.rules.specs.State.{weights, order_of};
ghost use Rattle.memory.specs.Reading.{state_of};
ghost use Rattle.memory.specs.Search.{RowsWithin};
ghost use Rattle.plain.specs.Matrix.{cell, MatrixOf, Top};

use memory::layout::Base;
use memory::rows::row_count;
use memory::search::weight_of_row;
use rules::SLOTS;
use spread::COLUMNS;

// The columns, each with a cell for every row that there can be.
pub type Matrix = [[u8; SLOTS]; COLUMNS as usize];

// Each row's weight is written into its row of the matrix, in joining order.
pub fn fill(state: &Base, matrix: &mut Matrix)
    requires { RowsWithin state.now }
    ensures { MatrixOf state.now matrix.new }
{
    for row in 0..row_count(state) {
        let weight = weight_of_row(state, row);
        fill_row(matrix, row, weight);
    }
}

// A matrix of its own, filled. (Lend one to `fill` where it is kept beside other arrays: the copy takes stack.)
pub fn filled(state: &Base) -> Matrix
    requires { RowsWithin state.now }
    ensures { MatrixOf state.now result }
{
    let mut matrix: Matrix = [[0; SLOTS]; COLUMNS as usize];
    fill(state, &mut matrix);
    matrix
}

// The bits of a weight, each into its column.
fn fill_row(matrix: &mut Matrix, row: usize, weight: u32)
    requires { row < slots }
    ensures { ((c : ℕ) → c < columns → cell matrix.new c row ≡ bit c weight)
        × ((c r : ℕ) → r < slots → (r ≡ row → ⊥) → cell matrix.new c r ≡ cell matrix.old c r) }
{
    for (column, cells) in matrix.iter_mut().enumerate() {
        cells[row] = bit_at(u64::from(weight), column as u32);
    }
}

// The bit at a place of a number, 1 or 0.
pub fn bit_at(number: u64, place: u32) -> u8
    requires { place < 64 }
    ensures { result ≡ bit place number }
{
    ((number >> place) % 2) as u8
}

// Whether a column has a row.
pub fn has_row(matrix: &Matrix, column: usize, count: usize) -> bool
    requires { (column < columns) × (count ≤ slots) }
    ensures { (result ≡ true → (i : ℕ) × (i < count) × (cell matrix.now column i ≡ 0 → ⊥))
        × (result ≡ false → (i : ℕ) → i < count → cell matrix.now column i ≡ 0) }
{
    matrix[column][..count].iter().any(|cell| *cell != 0)
}

// The order: one more than the highest column that is not empty, and 0 where all are.
pub fn order_in(matrix: &Matrix, count: usize) -> u32
    requires { count ≤ slots }
    ensures { Top matrix.now count result }
{
    for column in (0..COLUMNS).rev() {
        if has_row(matrix, column as usize, count) {
            return column + 1;
        }
    }
    0
}

// The order of the rows of a memory, by a matrix of its own. The columns cannot show a higher order than theirs, so none may be there.
pub fn order_of_rows(state: &Base) -> u32
    requires { RowsWithin state.now × (order_of (weights (state_of state.now).channels) (state_of state.now).rows ≤ columns) }
    ensures { result ≡ order_of (weights (state_of state.now).channels) (state_of state.now).rows }
{
    order_in(&filled(state), row_count(state))
}
