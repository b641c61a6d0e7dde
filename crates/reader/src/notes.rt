// The notes of a memory worked out afresh: an image carries neither the bytes waiting nor the list of the fullest (document 02, §7).
//
// Nothing is refused here either. Where the run is longer than there are cells no bytes are counted, and a sum is taken modulo 65,536: of a sound state's base all
// sums are right, and of any other the check finds out.
ghost use Rattle.std.specs.Prelude.{◌≡◌, ℕ, ◌<◌, ◌≤◌};
ghost use Rattle.rules.specs.Numbers.{slots};
ghost use Rattle.rules.specs.State.{State};
ghost use Rattle.rules.specs.Facts.{Sound};
ghost use Rattle.memory.specs.Layout.{bytes_of, memory_of};
ghost use Rattle.memory.specs.Memory.{base};
ghost use Rattle.fullest.specs.Noted.{NotedBy, Noted, now_in};
ghost use Rattle.reader.specs.Decoding.{bytes_from, no_bytes, farthest};

use fullest::noting::note;
use memory::heads::waiting_of;
use memory::layout::{Base, CELLS, Memory};
use memory::records::load_record;
use rules::SLOTS;

// The bytes of so many records of the run from a place on.
fn bytes_from(state: &Base, place: usize, count: usize) -> u16
    requires { (place ≤ farthest) × (count < 256) }
    ensures { result ≡ bytes_from state.now place count }
{
    if CELLS < place + count {
        return 0;
    }
    let mut sum: u16 = 0;
    for i in 0..count {
        let cell = load_record(state, place + i);
        sum = sum.wrapping_add(cell.length);
    }
    sum
}

// So many bytes wait in a slot in which none did. Where none do still the notes stay, and the list is not looked at.
fn note_any(memory: &mut [u8], slot: usize, bytes: u16)
    requires { Noted memory.old × (slot < slots) }
    ensures { ((f : ℕ → ℕ) → f slot ≡ 0 → NotedBy f memory.old → NotedBy (now_in f slot bytes) memory.new) × (base memory.new ≡ base memory.old) }
{
    if bytes != 0 {
        note(memory, slot, bytes);
    }
}

// The notes of a memory in which they say that no byte waits become those of its base: slot by slot, as if its bytes came all at once.
pub fn note_all(memory: &mut Memory)
    requires { NotedBy no_bytes memory.old }
    ensures { (s : State) → Sound s → base memory.old ≡ bytes_of s → memory.new ≡ memory_of s }
{
    let mut place = 0;
    for slot in 0..SLOTS {
        let base: &Base = memory.first_chunk().unwrap();
        let count = waiting_of(base, slot);
        let bytes = bytes_from(base, place, count);
        note_any(memory, slot, bytes);
        place += count;
    }
}
