// The jump over empty columns: which position of a round is the next whose column has a row, without looking at those between.
//
// Between two multiples of 2^(order - the union's order) a position scans a column above every row's highest bit. Of two such multiples in turn one scans
// the column of the union's highest bit, which has a row. So there are two candidates at most (proofs/JumpLaws), whatever the order.
ghost use Rattle.std.specs.Prelude.{◌≡◌, ◌^◌, ◌≤◌, ◌<◌};
ghost use Rattle.bits.specs.Order.{order as bits_of};
ghost use Rattle.spread.specs.Limits.{columns};
ghost use Rattle.spread.specs.Visits.{column_at};
ghost use Rattle.spread.specs.Jump.{jump};

use bits::{order_of, trailing_of};

// "the column is k minus the term", at a position of a round of the order.
pub fn column_at(order: u32, position: u32) -> u32
    requires { (order ≤ columns) × (0 < position) × (position < 2 ^ order) }
    ensures { (result ≡ column_at order position) × (result < order) }
{
    order - (trailing_of(position) + 1)
}

// The first position behind `position` whose column has a row, from the union of the rows' weights, or none where this round has none left.
pub fn next_filled(order: u32, union: u32, position: u32) -> Option<u32>
    requires { (0 < union) × (bits_of union ≤ order) × (order ≤ columns) × (position < 2 ^ order) }
    ensures { result ≡ jump order union position }
{
    let shift = order - order_of(union);
    let first = ((position >> shift) + 1) << shift;
    if 1 << order <= first {
        return None;
    }
    let column = column_at(order, first);
    if (union >> column) % 2 == 1 {
        return Some(first);
    }
    Some(first + (1 << shift))
}
