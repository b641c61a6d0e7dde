// The engine by hand: the choice is made on paper, and the order is one more than the highest column that is not empty.
ghost use Rattle.std.specs.Prelude.{◌≡◌};

use super::choose::choose;
use super::matrix::order_of_rows;
use super::order::rise;
use memory::layout::Base;
use memory::point::Scan;
use uplink::engine::Engine;
use visits::choose::Chosen;

// The matrix by hand.
pub struct ByHand;

impl Engine for ByHand {
    fn choose(state: &Base, scan: Scan) -> Chosen {
        choose(state, scan)
    }

    fn order_of_rows(state: &Base) -> u32 {
        order_of_rows(state)
    }

    fn rise(state: &mut Base, _slot: usize) {
        rise(state)
    }
}
