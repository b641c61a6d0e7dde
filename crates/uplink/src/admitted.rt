// Whether a memory takes calls: the checks that come before those of each call.
ghost use Rattle.std.specs.Prelude.{◌≡◌};
ghost use Rattle.uplink.specs.Holds.{admitted};

use answers::Refusal;
use memory::point::is_parked;
use soundness::check;

// The memory is a sound state's, and the state isn't parked.
pub fn admitted(state: &[u8]) -> Result<(), Refusal>
    ensures { result ≡ admitted state.now }
{
    if !check(state) {
        return Err(Refusal::Unsound);
    }
    if is_parked(state) {
        return Err(Refusal::Parked);
    }
    Ok(())
}
