// Which slot sends next: the open visit's, else the first still to visit, else the first of the next column that has a row.
//
// Nothing is written here: the scan point goes in by value, is altered by the stepping routines (step.rt), and comes back with the slot and the order.
ghost use Rattle.std.specs.Prelude.{◌≡◌, ◌^◌, ◌≤◌, ◌<◌};
ghost use Rattle.std.proofs.Math.Option.{some, map};
ghost use Rattle.spread.specs.Limits.{columns};
ghost use Rattle.rules.specs.Numbers.{slots};
ghost use Rattle.memory.specs.Reading.{in_mask, state_of};
ghost use Rattle.memory.specs.Search.{RowsWithin, first_slot};
ghost use Rattle.visits.specs.Choice.{chosen_of, in_chosen, landed_in, Visits, Chooses};

use super::step::{start_visit, take_term};
use bits::order_of;
use memory::layout::{Base, Position};
use memory::point::{Scan, load_order, turns};
use memory::search::{column_of, first_in, union_of_rows};
use spread::jump::{column_at, next_filled};

// The slot, 1 if its visit starts now else 0, the terms taken, the order, and the scan point with that visit open. (No bool: it is a number of the answer, and the
// grant is paid that many times, as paid_head says.)
#[derive(Clone, Copy)]
pub struct Chosen {
    pub slot: usize,
    pub started: u32,
    pub terms: u32,
    pub order: u8,
    pub scan: Scan,
}

// "If a visit is open, its slot is chosen. Else, if slots remain to visit, the first of them in row order starts a visit." Else terms are taken until there is one.
pub fn choose(state: &Base, scan: Scan) -> Chosen
    requires { Chooses state.now scan }
    ensures { some result ≡ map in_chosen (chosen_of (state_of state.now)) }
{
    if scan.visit != 0 {
        return open_visit(state, scan);
    }
    let order = load_order(state);
    if scan.mask != 0 {
        return first_visit(state, 0, order, scan);
    }
    jumped(state, order, scan)
}

// "If a visit is open, its slot is chosen."
pub fn open_visit(state: &Base, scan: Scan) -> Chosen
    requires { Chooses state.now scan × (scan.visit ≡ 0 → ⊥) }
    ensures { some result ≡ map in_chosen (chosen_of (state_of state.now)) }
{
    Chosen {
        slot: usize::from(scan.visit) - 1,
        started: 0,
        terms: 0,
        order: load_order(state),
        scan,
    }
}

// The terms up to the next column that has a row are taken in one jump: in this round, or through its end, after which the order is the rows' and position 1 has
// one. (In edition 1 the order is theirs all the while, and P turns to 1.)
// Widened by `as`: with a call of `from` each answer has to be told its result first.
fn jumped(state: &Base, order: u8, scan: Scan) -> Chosen
    requires { Chooses state.now scan × (order ≡ (state_of state.now).order) × (scan.visit ≡ 0) × (scan.mask ≡ 0) }
    ensures { some result ≡ map in_chosen (chosen_of (state_of state.now)) }
{
    let union = union_of_rows(state);
    if let Some(next) = next_filled(order as u32, union, scan.position as u32) {
        let found = landed(state, order as u32, next as Position, scan);
        return first_visit(state, next - scan.position as u32, order, found);
    }
    let afresh = order_of(union);
    let found = landed(state, afresh, 1, scan);
    let terms = turns(order as u32) - scan.position;
    first_visit(state, terms as u32, afresh as u8, found)
}

// The first slot to visit, in row order, starts its visit and goes off the list.
fn first_visit(state: &Base, terms: u32, order: u8, mut scan: Scan) -> Chosen
    requires { RowsWithin state.now × (first_slot (in_mask scan.mask (state_of state.now).rows) < slots) }
    ensures { Visits terms order scan (first_slot (in_mask scan.mask (state_of state.now).rows)) result }
{
    let slot = first_in(state, scan.mask);
    start_visit(&mut scan, slot);
    Chosen {
        slot,
        started: 1,
        terms,
        order,
        scan,
    }
}

// The term at a position of a round of the order is taken: "the column is k minus the term", and all its rows become the slots to visit.
fn landed(state: &Base, order: u32, position: Position, mut scan: Scan) -> Scan
    requires { RowsWithin state.now × (order ≤ columns) × (0 < position) × (position < 2 ^ order) }
    ensures { result ≡ landed_in (state_of state.now) order position scan }
{
    let column = column_at(order, u32::from(position));
    let mask = column_of(state, column);
    take_term(&mut scan, position, column as u8, mask);
    scan
}
