// The order after a record has left: it falls where a row left with the record, and is worked out afresh where a round is over.
//
// Whether it is to be worked out (`asks`) and what becomes of the memory then (`order_found`) do not depend on who works it out.
ghost use Rattle.std.specs.Prelude.{◌≡◌, true, cond, ◌%◌, ◌^◌, ◌≤◌, ◌<◌};
ghost use Rattle.spread.specs.Limits.{columns};
ghost use Rattle.rules.specs.Numbers.{slots};
ghost use Rattle.memory.specs.Layout.{bytes_of};
ghost use Rattle.memory.specs.Reading.{state_of};
ghost use Rattle.visits.specs.Order.{reordered, order_of_rows, falls_order, asks_order, ordered, Unordered};

use memory::heads::waiting_of;
use memory::layout::{Base, Position};
use memory::point::{
    Scan, holds, load_position, load_scan, round_over, store_order, store_scan, turns,
};

// Whether the order is to be worked out: it falls, or the round is over.
pub fn asks(state: &Base, slot: usize) -> bool
    requires { Unordered state.now × (slot < slots) }
    ensures { result ≡ asks_order (state_of state.now) slot }
{
    let fallen = falls(state, slot);
    let over = round_over(state);
    fallen | over
}

// The order that whoever was asked has found, and P with it.
pub fn order_found(state: &mut Base, slot: usize, order: u32)
    requires { Unordered state.old × (slot < slots) × (asks_order (state_of state.old) slot ≡ true) × (order ≡ order_of_rows (state_of state.old)) }
    ensures { state.new ≡ bytes_of (ordered slot (state_of state.old)) }
{
    let position = position_left(state, slot, order);
    reorder(state, order, position);
}

// Whether the order falls: the slot has sent its last record, so that its row has left, and the order is not held.
fn falls(state: &Base, slot: usize) -> bool
    requires { Unordered state.now × (slot < slots) }
    ensures { result ≡ falls_order (state_of state.now) slot }
{
    let waiting = waiting_of(state, slot);
    let held = holds(state);
    (waiting == 0) & !held
}

// Where the order falls "P becomes P mod 2^k", and where the round is over "P is 0".
fn position_left(state: &Base, slot: usize, order: u32) -> Position
    requires { Unordered state.now × (slot < slots) × (order ≤ columns) }
    ensures { result ≡ cond (falls_order (state_of state.now) slot) ((state_of state.now).scan.position % 2 ^ order) 0 }
{
    if falls(state, slot) {
        load_position(state) % turns(order)
    } else {
        0
    }
}

// The memory with another order, and another P.
fn reorder(state: &mut Base, order: u32, position: Position)
    requires { Unordered state.old × (order ≤ columns) }
    ensures { state.new ≡ bytes_of (reordered (state_of state.old) order position) }
{
    let scan = load_scan(state);
    store_order(state, order as u8);
    store_scan(state, Scan { position, ..scan });
}
