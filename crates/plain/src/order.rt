// The order on paper: one more than the highest column that is not empty. It may rise after a slot has joined the rows.
ghost use Rattle.std.specs.Prelude.{◌≡◌, ℕ};
ghost use Rattle.memory.specs.Layout.{bytes_of};
ghost use Rattle.memory.specs.Reading.{state_of};
ghost use Rattle.uplink.specs.PutSteps.{risen, Joined};

use super::matrix::order_of_rows;
use memory::layout::Base;
use memory::point::{load_order, store_order};

// "The order may rise": to that of the rows, the one that has joined among them.
pub fn rise(state: &mut Base)
    requires { (i : ℕ) × Joined state.old i }
    ensures { state.new ≡ bytes_of (risen (state_of state.old)) }
{
    let order = load_order(state).max(order_of_rows(state) as u8);
    store_order(state, order);
}
