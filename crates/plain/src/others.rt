// Start, Open, Close and Ask: neither the matrix nor the order is touched by them, so each is the linked engine's. (They stand here too:
// SameAsUplink and docs/PROMISES say of plain's own functions that they do what the linked engine's do.)
ghost use Rattle.std.specs.Prelude.{◌≡◌};
ghost use Rattle.rules.specs.Calls.{open_call, close_call, ask_call};
ghost use Rattle.memory.specs.Memory.{on, start_on};
ghost use Rattle.uplink.specs.Told.{start_told, open_told, close_told, ask_told, leaving};

use answers::Refusal;
use uplink::{Asked, Opened};

// Start writes the fresh state of an edition.
pub fn start(state: &mut [u8], edition: u32) -> Result<(), Refusal>
    ensures { leaving (start_told result) state.new ≡ start_on edition state.old }
{
    uplink::open::start(state, edition)
}

// Open takes the lowest slot that is free and whose ticket isn't the last.
pub fn open(state: &mut [u8], weight: u32) -> Result<Opened, Refusal>
    ensures { leaving (open_told result) state.new ≡ on (open_call weight) state.old }
{
    uplink::open::open(state, weight)
}

// Close frees an empty channel at once; one with records drains.
pub fn close(state: &mut [u8], slot: u32, ticket: u32) -> Result<bool, Refusal>
    ensures { leaving (close_told result) state.new ≡ on (close_call slot ticket) state.old }
{
    uplink::close::close(state, slot, ticket)
}

// Ask answers a channel's kind, weight, deficit, number waiting and bytes waiting.
pub fn ask(state: &[u8], slot: u32, ticket: u32) -> Result<Asked, Refusal>
    ensures { leaving (ask_told result) state.now ≡ on (ask_call slot ticket) state.now }
{
    uplink::ask::ask(state, slot, ticket)
}
