// Next, the choice and the order worked out on paper. What is sent, and what it costs, has nothing to do with the matrix.
ghost use Rattle.std.specs.Prelude.{◌≡◌};
ghost use Rattle.rules.specs.Next.{next_call};
ghost use Rattle.memory.specs.Memory.{on};
ghost use Rattle.uplink.specs.Told.{next_told, leaving};

use super::engine::ByHand;
use answers::Refusal;
use uplink::Sent;
use uplink::next::next_by;

// Next sends one record: an open visit goes on, or the first slot still to visit starts one, or the first of the next column that has a row.
pub fn next(state: &mut [u8]) -> Result<Sent, Refusal>
    ensures { leaving (next_told result) state.new ≡ on next_call state.old }
{
    next_by::<ByHand>(state)
}
