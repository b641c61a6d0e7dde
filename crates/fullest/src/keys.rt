// A slot's key, and the greatest one below a limit.
ghost use Rattle.std.specs.Prelude.{◌≡◌, cond, ◌+◌, ◌-◌, ◌*◌, ◌<◌, ltb};
ghost use Rattle.rules.specs.Numbers.{slots};
ghost use Rattle.memory.specs.Reading.{bytes_at};
ghost use Rattle.fullest.specs.Keys.{key};
ghost use Rattle.fullest.specs.Moved.{next_below, slot_of_key};

use memory::layout::{BYTES, Memory};
use rules::SLOTS;

// Larger than any key.
pub const TOP: u32 = 4294967295;

// The least key of a slot in which a byte waits: less than this is left out.
pub const LEAST: u32 = SLOTS as u32;

// What the last slot's key falls short of it.
pub const LAST: u32 = LEAST - 1;

// The number of two bytes: in a loop over two lines the compiler makes it by one step for eight numbers.
pub fn two(low: u8, high: u8) -> u16
    ensures { result ≡ low + 256 * high }
{
    u16::from(low) + 256 * u16::from(high)
}

// The key of a slot with these bytes waiting.
fn key_of(low: u8, high: u8, slot: usize) -> u32
    requires { slot < slots }
    ensures { result ≡ slots * (low + 256 * high) + (slots - 1 - slot) }
{
    LEAST * u32::from(two(low, high)) + (SLOTS - 1 - slot) as u32
}

// A slot's key.
pub fn key_at(state: &Memory, slot: usize) -> u32
    requires { slot < slots }
    ensures { result ≡ key (bytes_at state.now) slot }
{
    key_of(state[BYTES + slot], state[BYTES + SLOTS + slot], slot)
}

// The key where it is below a limit, and 0 where it is not.
fn if_below(limit: u32, x: u32) -> u32
    ensures { result ≡ cond (ltb x limit) x 0 }
{
    if x < limit { x } else { 0 }
}

// The greatest key below a limit, 0 where there is none: when a slot leaves the list, this one comes last.
pub fn best_below(state: &Memory, limit: u32) -> u32
    ensures { slot_of_key result ≡ next_below (bytes_at state.now) limit }
{
    let mut best: u32 = 0;
    for s in 0..SLOTS {
        let x = key_of(state[BYTES + s], state[BYTES + SLOTS + s], s);
        best = best.max(if_below(limit, x));
    }
    best
}
