// What an engine works out by itself: which slot sends next, and the order. The rest of Put and Next is one code for every engine.
ghost use Rattle.std.specs.Prelude.{◌≡◌, max};
ghost use Rattle.std.proofs.Math.Option.{some, map};
ghost use Rattle.bits.specs.Order.{order as bits_of};
ghost use Rattle.memory.specs.Layout.{bytes_of};
ghost use Rattle.memory.specs.Reading.{state_of};
ghost use Rattle.visits.specs.Choice.{chosen_of, in_chosen, Chooses};
ghost use Rattle.visits.specs.Order.{order_of_rows, Unordered};
ghost use Rattle.uplink.specs.PutSteps.{risen, Joined};

use bits::order_of;
use memory::heads::load_weight;
use memory::layout::{Base, Weight};
use memory::point::{Scan, load_order, store_order};
use memory::search::order_of_rows;
use visits::choose::{Chosen, choose};

// A way to work them out. The contracts leave room for no second choice and no second order, so the engines differ in nothing but the way.
pub trait Engine {
    // The slot that sends next.
    fn choose(state: &Base, scan: Scan) -> Chosen
        requires { Chooses state.now scan }
        ensures { some result ≡ map in_chosen (chosen_of (state_of state.now)) };

    // The order of the rows, of a memory whose order is still to be worked out.
    fn order_of_rows(state: &Base) -> u32
        requires { Unordered state.now }
        ensures { result ≡ order_of_rows (state_of state.now) };

    // "The order may rise": to that of the rows, which the slot has joined.
    fn rise(state: &mut Base, slot: usize)
        requires { Joined state.old slot }
        ensures { state.new ≡ bytes_of (risen (state_of state.old)) };
}

// The linked engine: it jumps over empty columns.
pub struct Jumping;

impl Engine for Jumping {
    fn choose(state: &Base, scan: Scan) -> Chosen {
        choose(state, scan)
    }

    fn order_of_rows(state: &Base) -> u32 {
        order_of_rows(state)
    }

    // To the bits of the weight that joined, for the other rows are within the order.
    fn rise(state: &mut Base, slot: usize) {
        let order = larger(load_order(state), load_weight(state, slot));
        store_order(state, order);
    }
}

// The larger of an order and a weight's.
fn larger(order: u8, weight: Weight) -> u8
    ensures { result ≡ max order (bits_of weight) }
{
    order.max(order_of(u32::from(weight)) as u8)
}
