// The terms of a scan, one after the other, until one's column has a row.
ghost use Rattle.std.specs.Prelude.{◌≡◌, ◌^◌, ◌≤◌, ◌<◌};
ghost use Rattle.spread.specs.Limits.{columns};
ghost use Rattle.spread.specs.Sequence.{spread};
ghost use Rattle.terms.specs.Table.{table_order};
ghost use Rattle.rules.specs.Next.{next_position};
ghost use Rattle.memory.specs.Reading.{state_of};
ghost use Rattle.plain.specs.Matrix.{MatrixOf};
ghost use Rattle.plain.specs.Places.{InRound, Ends, Begins, Finds, next_term, next_round};

use super::matrix::{Matrix, has_row, order_in};
use memory::layout::{Base, Position};
use memory::point::{holds, turns};
use memory::rows::row_count;
use terms::term_in;

// Where one stands in the sequence: the order k of the round, the position P of the last term taken, its column, and the terms that this call has taken.
#[derive(Clone, Copy)]
pub struct Place {
    pub order: u8,
    pub position: Position,
    pub column: u8,
    pub terms: u32,
}

// "If that column is empty, one more term is taken", in edition 2 so on, "through a round's end if need be, until it finds a row".
pub fn column_found(state: &Base, matrix: &Matrix, table: &[u8; 4095], start: Place) -> Place
    requires { Begins state.now start × MatrixOf state.now matrix.now × (table.now ≡ spread table_order) }
    ensures { Finds state.now result }
{
    let count = row_count(state);
    let mut place = term_taken(table, start);
    // A while: a term's column alone says whether one more is taken.
    while !has_row(matrix, usize::from(place.column), count) {
        let ended = round_ended(state, matrix, place);
        place = term_taken(table, ended);
    }
    place
}

// "P goes up by one, and 2^k becomes 1; the column is k minus the term."
fn term_taken(table: &[u8; 4095], place: Place) -> Place
    requires { (table.now ≡ spread table_order) × InRound place }
    ensures { result ≡ next_term place }
{
    let position = next_position(u32::from(place.order), place.position);
    let term = term_in(table, usize::from(position));
    Place {
        position,
        column: place.order - term,
        terms: place.terms + 1,
        ..place
    }
}

// The position after P in a round of the order.
fn next_position(order: u32, position: Position) -> Position
    requires { (order ≤ columns) × (position < 2 ^ order) }
    ensures { result ≡ next_position order position }
{
    let next = position + 1;
    if next == turns(order) {
        return 1;
    }
    next
}

// "a round's end (term 2^k - 1 taken, no visit open, none left to visit); then the order is worked out afresh and P is 0", where the order is held. (The column
// at `place` is empty.)
fn round_ended(state: &Base, matrix: &Matrix, place: Place) -> Place
    requires { Ends state.now place × MatrixOf state.now matrix.now }
    ensures { result ≡ next_round (state_of state.now) place }
{
    let held = holds(state);
    if held & (place.position + 1 == turns(u32::from(place.order))) {
        let order = order_in(matrix, row_count(state)) as u8;
        return Place {
            order,
            position: 0,
            ..place
        };
    }
    place
}
