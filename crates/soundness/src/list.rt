// Whether the list of the fullest is the one worked out afresh.
//
// Nothing is sorted. The listed slots' keys must fall, and as many slots as are listed must be at or above the last of five, or have bytes waiting at all where fewer
// are listed.
ghost use Rattle.std.specs.Prelude.{◌≡◌, ℕ, ◌<◌, ◌≤◌, Bool, true, nat_le};
ghost use Rattle.rules.specs.Numbers.{slots, listed};
ghost use Rattle.memory.specs.Reading.{bytes_at};
ghost use Rattle.fullest.specs.Listing.{slots_from};
ghost use Rattle.fullest.specs.Keys.{key, top, falling, above, limit_of};
ghost use Rattle.soundness.specs.Notes.{fullest_rule};

use super::lines::at_most;
use super::sums::no_bytes;
use fullest::keys::{LEAST, TOP, key_at};
use memory::layout::{FULLEST, LISTED_COUNT, Memory};
use rules::{LISTED, SLOTS};

// Where the last of five stands.
const FIFTH: usize = FULLEST + LISTED - 1;

// Whether the n listed are slots with bytes waiting, the fullest first.
fn in_order(state: &Memory, n: usize) -> bool
    requires { n ≤ listed }
    ensures { result ≡ falling (bytes_at state.now) top (slots_from state.now 0 n) }
{
    let mut ok = true;
    let mut last: u32 = TOP;
    for k in 0..n {
        let slot = usize::from(state[FULLEST + k]);
        if SLOTS <= slot {
            return false;
        }
        let x = key_at(state, slot);
        ok = ok & ((LEAST <= x) & (x < last));
        last = x;
    }
    ok
}

// How many slots pass a test, which is whether a key is at or above a limit.
fn count<F: Fn(usize) -> bool>(test: F) -> u8
    requires { (s : ℕ) → s < slots → F.pre test s }
    ensures { (f : ℕ → ℕ) (limit : ℕ) → ((s : ℕ) → s < slots → (r : Bool) → F.post test s r → r ≡ nat_le limit (key f s)) → result ≡ above f limit slots }
{
    let mut n = 0;
    for s in 0..SLOTS {
        n += u8::from(test(s));
    }
    n
}

// How many slots are at or above a limit.
fn count_above(state: &Memory, limit: u32) -> u8
    ensures { result ≡ above (bytes_at state.now) limit slots }
{
    count(|s| limit <= key_at(state, s))
}

// How many slots have bytes waiting: those at or above the least key of such a slot. Bytes are compared sixteen at a time, which keys are not.
fn count_filled(state: &Memory) -> u8
    ensures { result ≡ above (bytes_at state.now) slots slots }
{
    count(|s| !no_bytes(state, s))
}

// How many slots are at or above the limit of a list of n that is in order.
fn count_for(state: &Memory, n: usize) -> u8
    requires { (n ≤ listed) × (falling (bytes_at state.now) top (slots_from state.now 0 n) ≡ true) }
    ensures { result ≡ above (bytes_at state.now) (limit_of (bytes_at state.now) (slots_from state.now 0 n)) slots }
{
    if n < LISTED {
        return count_filled(state);
    }
    count_above(state, key_at(state, usize::from(state[FIFTH])))
}

// Whether the list is the one worked out afresh, and 0 stands behind it.
pub fn fullest_ok(state: &Memory) -> bool
    ensures { result ≡ fullest_rule state.now }
{
    let n = usize::from(state[LISTED_COUNT]);
    n <= LISTED
        && (at_most(&state[FULLEST + n..FULLEST + LISTED], 0)
            && (in_order(state, n) && usize::from(count_for(state, n)) == n))
}
