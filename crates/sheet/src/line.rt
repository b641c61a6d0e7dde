// The rows of one column, in row order.
ghost use Rattle.std.specs.Prelude.{◌≡◌, ◌≤◌, ◌<◌, length, take};
ghost use Rattle.bits.specs.Bit.{bit};
ghost use Rattle.spread.specs.Round.{rows_with};
ghost use Rattle.sheet.specs.Sheet.{rows_most, columns_on_sheet};

use super::ROWS;

#[derive(Clone, Copy)]
pub struct Line {
    rows: [u8; ROWS],
    count: usize,
    ghost room: { count ≤ rows_most },
}

impl Line {
    // A line without rows.
    pub fn new() -> Line {
        Line {
            rows: [0; ROWS],
            count: 0,
        }
    }

    // Lays the column of rows with these weights. Each row is written at the next place, which is kept if the row stands in the column.
    pub fn lay(&mut self, weights: &[u32], column: u32)
        requires { (length weights.now ≤ rows_most) × (column < columns_on_sheet) }
        ensures { take self.new.count self.new.rows ≡ rows_with column 0 weights.now }
    {
        let mut count = 0;
        for (row, weight) in weights.iter().enumerate() {
            self.rows[count] = row as u8;
            count += in_column(*weight, column);
        }
        self.count = count;
    }

    // Its rows.
    pub fn rows(&self) -> &[u8]
        ensures { result.now ≡ take self.now.count self.now.rows }
    {
        &self.rows[..self.count]
    }
}

// 1 if a row of this weight stands in the column, else 0.
#[tactic(auto, unfolding(bits::specs::Bit::bit))]
fn in_column(weight: u32, column: u32) -> usize
    requires { column < columns_on_sheet }
    ensures { result ≡ bit column weight }
{
    ((weight >> column) % 2) as usize
}
