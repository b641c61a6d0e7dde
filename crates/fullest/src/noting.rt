// The notes of a memory: the bytes that wait in a slot, and all of them after those of one slot changed.
ghost use Rattle.std.specs.Prelude.{◌≡◌, ℕ, ◌+◌, ◌-◌, ◌≤◌, ◌<◌, length as count};
ghost use Rattle.rules.specs.Numbers.{slots};
ghost use Rattle.memory.specs.Layout.{memory_length};
ghost use Rattle.memory.specs.Memory.{base};
ghost use Rattle.memory.specs.Reading.{bytes_at};
ghost use Rattle.fullest.specs.Noted.{NotedBy, Noted, now_in};

use super::keys::two;
use super::line::Line;
use super::moving::move_one;
use memory::layout::{BYTES, LISTED_COUNT};
use octets::low_first::write;
use rules::SLOTS;

// The bytes that wait in a slot.
pub fn bytes_of(state: &[u8], slot: usize) -> u16
    requires { (count state.now ≡ memory_length) × (slot < slots) }
    ensures { result ≡ bytes_at state.now slot }
{
    two(state[BYTES + slot], state[BYTES + SLOTS + slot])
}

// So many bytes wait in a slot now: one number is written, and one entry of the list is moved.
// A slice, as its callers lend it: tried as an array, whose elements the check does not know to be bytes after a call has altered them.
pub fn note(state: &mut [u8], slot: usize, bytes: u16)
    requires { Noted state.old × (slot < slots) }
    ensures { ((f : ℕ → ℕ) → NotedBy f state.old → NotedBy (now_in f slot bytes) state.new) × (base state.new ≡ base state.old) }
{
    write(state, BYTES + slot, SLOTS, bytes);
    let n = usize::from(state[LISTED_COUNT]);
    let mut line = Line::new();
    move_one(state.first_chunk().unwrap(), n, slot, &mut line);
    line.store(state);
}

// A record of a length came to a slot, or left it. (Two functions: a closure for + and - would be longer than the line they differ in, and they ask different things.)
pub fn grow(state: &mut [u8], slot: usize, length: u16)
    requires { Noted state.old × (slot < slots) × (bytes_at state.old slot + length < 65536) }
    ensures { ((f : ℕ → ℕ) → NotedBy f state.old → NotedBy (now_in f slot (f slot + length)) state.new) × (base state.new ≡ base state.old) }
{
    note(state, slot, bytes_of(state, slot) + length);
}

pub fn shrink(state: &mut [u8], slot: usize, length: u16)
    requires { Noted state.old × (slot < slots) × (length ≤ bytes_at state.old slot) }
    ensures { ((f : ℕ → ℕ) → NotedBy f state.old → NotedBy (now_in f slot (f slot - length)) state.new) × (base state.new ≡ base state.old) }
{
    note(state, slot, bytes_of(state, slot) - length);
}
