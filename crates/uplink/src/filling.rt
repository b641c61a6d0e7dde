// Fullest: how many channels are listed as the fullest, and each one's slot and bytes. Nothing changes.
ghost use Rattle.std.specs.Prelude.{◌≡◌, ◌<◌, slice_index_or};
ghost use Rattle.rules.specs.Numbers.{listed};
ghost use Rattle.rules.specs.Calls.{entries, fullest_call};
ghost use Rattle.memory.specs.Reading.{state_of};
ghost use Rattle.memory.specs.Memory.{replied, on};
ghost use Rattle.uplink.specs.Holds.{TakesCalls};
ghost use Rattle.uplink.specs.Told.{entry_told, nobody, fullest_told, ZerosBehind, leaving};

use super::admitted::admitted;
use super::{Listed, Place};
use answers::Refusal;
use fullest::noting::bytes_of;
use memory::layout::{FULLEST, LISTED_COUNT};

// Fullest answers the list of the five fullest: most bytes first, the lower slot first on a tie, channels with none left out.
pub fn fullest(state: &[u8]) -> Result<Listed, Refusal>
    ensures { (leaving (fullest_told result) state.now ≡ on fullest_call state.now) × ZerosBehind result }
{
    admitted(state)?;
    fullest_in(state)
}

// Fullest on a memory that takes calls: the list stands in its notes, and each one's bytes too.
fn fullest_in(state: &[u8]) -> Result<Listed, Refusal>
    requires { TakesCalls state.now }
    ensures { (leaving (fullest_told result) state.now ≡ replied state.now (fullest_call (state_of state.now))) × ZerosBehind result }
{
    let count = u32::from(state[LISTED_COUNT]);
    let places = [
        place_at(state, 0),
        place_at(state, 1),
        place_at(state, 2),
        place_at(state, 3),
        place_at(state, 4),
    ];
    Ok(Listed { count, places })
}

// The channel at place k of the list, and zeros behind the last.
fn place_at(state: &[u8], k: usize) -> Place
    requires { TakesCalls state.now × (k < listed) }
    ensures { entry_told result ≡ slice_index_or (entries (state_of state.now)) k nobody }
{
    if usize::from(state[LISTED_COUNT]) <= k {
        return Place { slot: 0, bytes: 0 };
    }
    let slot = usize::from(state[FULLEST + k]);
    let bytes = bytes_of(state, slot);
    Place {
        slot: slot as u32,
        bytes: bytes as u32,
    }
}
