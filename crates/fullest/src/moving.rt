// The list after the bytes of one slot changed: the slot is taken out of the list, and put in again where it belongs. (specs/Moved.antt joins the two.)
ghost use Rattle.std.specs.Prelude.{◌≡◌, ◌≤◌, ◌<◌, length};
ghost use Rattle.rules.specs.Numbers.{slots, listed};
ghost use Rattle.memory.specs.Reading.{bytes_at};
ghost use Rattle.fullest.specs.Listing.{slots_from};
ghost use Rattle.fullest.specs.Moved.{next_below, slot_of_key, moved, Movable};

use super::keys::{best_below, key_at};
use super::line::Line;
use memory::layout::Memory;
use rules::LISTED;

// The greatest key below a limit, of n slots listed before the bytes of one changed; x is the key of that one. Where fewer than five were listed, every slot
// with bytes was, so that it is the only one to ask about.
fn next_key(state: &Memory, n: usize, x: u32, limit: u32) -> u32
    requires { n < listed → slot_of_key x ≡ next_below (bytes_at state.now) limit }
    ensures { slot_of_key result ≡ next_below (bytes_at state.now) limit }
{
    if n < LISTED {
        x
    } else {
        best_below(state, limit)
    }
}

// The line becomes the list after the bytes of one slot changed, from the n slots listed before. A look at all slots is needed only where five were listed and the
// slot fell behind the other four.
pub fn move_one(state: &Memory, n: usize, slot: usize, line: &mut Line)
    requires { (n ≤ listed) × (slot < slots) × Movable (bytes_at state.now) slot (slots_from state.now 0 n) }
    ensures { (length line.new ≤ listed) × (line.new ≡ moved (bytes_at state.now) slot (slots_from state.now 0 n)) }
{
    line.without(state, n, slot);
    let x = key_at(state, slot);
    let least = line.least(state);
    if least < x {
        line.put_in(state, slot as u8);
        line.cut();
        return;
    }
    if line.len() == LISTED {
        return;
    }
    let y = next_key(state, n, x, least);
    line.push_key(y);
}
