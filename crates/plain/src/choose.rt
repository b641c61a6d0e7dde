// Which slot sends next: the open visit's, else the first row of the list, else the first of the next column that has a row.
//
// Nothing is written here. The contract is that of visits::choose::choose: the rules' own choice, in numbers.
ghost use Rattle.std.specs.Prelude.{◌≡◌, Some};
ghost use Rattle.std.proofs.Math.Option.{some, map};
ghost use Rattle.rules.specs.Next as rules;
ghost use Rattle.memory.specs.Reading.{row_count_at, state_of};
ghost use Rattle.memory.specs.Search.{RowsWithin};
ghost use Rattle.visits.specs.Choice.{chosen_of, in_chosen, Chooses};
ghost use Rattle.plain.specs.Matrix.{MatrixOf};
ghost use Rattle.plain.specs.Marks.{marks_in, first_mark};
ghost use Rattle.plain.specs.Places.{Begins, Finds, Starts};

use super::list::{Marks, first_marked, marks_of, mask_of};
use super::matrix::{Matrix, fill};
use super::scan::{Place, column_found};
use memory::layout::Base;
use memory::point::{Scan, load_order};
use memory::rows::row_count;
use memory::search::row_at;
use rules::SLOTS;
use spread::COLUMNS;
use terms::table::copied;
use visits::choose::Chosen;

// "If a visit is open, its slot is chosen. Else, if slots remain to visit, the first of them in row order starts a visit." Else terms are taken until there is one.
pub fn choose(state: &Base, scan: Scan) -> Chosen
    requires { Chooses state.now scan }
    ensures { some result ≡ map in_chosen (chosen_of (state_of state.now)) }
{
    let order = load_order(state);
    if scan.visit != 0 {
        return Chosen {
            slot: usize::from(scan.visit) - 1,
            started: 0,
            terms: 0,
            order,
            scan,
        };
    }
    let place = Place {
        order,
        position: scan.position,
        column: scan.column,
        terms: 0,
    };
    let mut list = marks_of(state, scan.mask);
    if let Some(row) = first_marked(&list, row_count(state)) {
        return first_visit(state, &mut list, row, place);
    }
    by_terms(state, place)
}

// The matrix is filled and the table copied, once each, and terms are taken until a column has a row.
fn by_terms(state: &Base, start: Place) -> Chosen
    requires { Begins state.now start }
    ensures { some result ≡ map in_chosen (chosen_of (state_of state.now)) }
{
    let table = copied();
    let mut matrix: Matrix = [[0; SLOTS]; COLUMNS as usize];
    fill(state, &mut matrix);
    let found = column_found(state, &matrix, &table, start);
    column_visited(state, &matrix, found)
}

// "All rows of the column found become the slots to visit, and the first starts its visit."
fn column_visited(state: &Base, matrix: &Matrix, found: Place) -> Chosen
    requires { RowsWithin state.now × MatrixOf state.now matrix.now × Finds state.now found }
    ensures { some result ≡ map in_chosen (chosen_of (state_of state.now)) }
{
    let mut list: Marks = matrix[usize::from(found.column)];
    let row = first_marked(&list, row_count(state)).unwrap();
    first_visit(state, &mut list, row, found)
}

// The first row of the list starts its visit. "Starting a visit takes the slot off that list".
fn first_visit(state: &Base, list: &mut Marks, row: usize, place: Place) -> Chosen
    requires { RowsWithin state.now × (Some row ≡ first_mark list.old (row_count_at state.now)) }
    ensures { Starts place (marks_in list.old (state_of state.now).rows) result }
{
    list[row] = 0;
    let slot = row_at(state, row);
    let column = noted(state, list, place.column);
    let mask = mask_of(state, list);
    let visit = slot as u8 + 1;
    Chosen {
        slot,
        started: 1,
        terms: place.terms,
        order: place.order,
        scan: Scan {
            position: place.position,
            column,
            mask,
            visit,
        },
    }
}

// "When the list is empty the noted column is 0."
fn noted(state: &Base, list: &Marks, column: u8) -> u8
    requires { RowsWithin state.now }
    ensures { result ≡ rules.noted (marks_in list.now (state_of state.now).rows) column }
{
    if first_marked(list, row_count(state)).is_some() {
        return column;
    }
    0
}
