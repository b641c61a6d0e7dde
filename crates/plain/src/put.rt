// Put, the order worked out on paper where a slot has joined the rows.
ghost use Rattle.std.specs.Prelude.{◌≡◌};
ghost use Rattle.rules.specs.Calls.{put_call};
ghost use Rattle.memory.specs.Memory.{on};
ghost use Rattle.uplink.specs.Told.{put_told, leaving};

use super::engine::ByHand;
use answers::Refusal;
use uplink::Taken;
use uplink::put::put_by;

// Put takes a record whose length is in range to the end of an open channel's queue, and answers its serial and how many wait now.
pub fn put(
    state: &mut [u8],
    slot: u32,
    ticket: u32,
    length: u32,
    reference: u32,
) -> Result<Taken, Refusal>
    ensures { leaving (put_told result) state.new ≡ on (put_call slot ticket length reference) state.old }
{
    put_by::<ByHand>(state, slot, ticket, length, reference)
}
