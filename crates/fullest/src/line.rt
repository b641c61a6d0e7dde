// The list while one entry of it is moved: a line of slots, with room for one more than are listed, the one that may fall out.
ghost use Rattle.std.specs.Prelude.{◌≡◌, ℕ, List, [], ◌∷◌, ◌++◌, cond, ◌+◌, ◌≤◌, ◌<◌, ltb, length, take, get_or};
ghost use Rattle.rules.specs.Numbers.{slots, listed};
ghost use Rattle.memory.specs.Layout.{memory_length};
ghost use Rattle.memory.specs.Reading.{bytes_at};
ghost use Rattle.fullest.specs.Listing.{slots_from, Lists};
ghost use Rattle.fullest.specs.Keys.{key};
ghost use Rattle.fullest.specs.Moved.{without, least_of, put_in, slot_of_key, FallingLine};

use super::keys::{LAST, LEAST, TOP, key_at};
use memory::layout::{FULLEST, LISTED_COUNT, Memory};
use rules::LISTED;
use std::marker::Model;

// Room for the list and one more.
pub const LINE: usize = LISTED + 1;

// The slots at the first `count` places are listed; behind them stands 0, as far as the list goes.
#[derive(Drop)]
pub struct Line {
    places: [u8; LINE],
    count: usize,
}

// Clauses see the slots that are listed.
impl Model for Line {
    ghost Value = { List ℕ };

    ghost view = { λ l. take l.count l.places };

    ghost invariant = { λ l. (l.count ≤ listed + 1) × ((k : ℕ) → l.count ≤ k → k < listed → get_or l.places k 0 ≡ 0) };
}

impl Line {
    pub fn new() -> Line
        ensures { result ≡ [] }
    {
        Line {
            places: [0; LINE],
            count: 0,
        }
    }

    // Becomes the n listed slots but one, in their order, whatever it was. A line is lent, and not moved once slots were pushed: such a move waits for their bytes.
    pub fn without(&mut self, state: &Memory, n: usize, slot: usize)
        requires { n ≤ listed }
        ensures { (length self.new ≤ n) × (self.new ≡ without slot (slots_from state.now 0 n)) }
    {
        *self = Line::new();
        for &t in &state[FULLEST..FULLEST + n] {
            if usize::from(t) != slot {
                self.push(t);
            }
        }
    }

    // How many slots are listed.
    pub fn len(&self) -> usize
        ensures { result ≡ length self.now }
    {
        self.count
    }

    // One more, behind the others.
    pub fn push(&mut self, slot: u8)
        requires { length self.old ≤ listed }
        ensures { self.new ≡ self.old ++ slot ∷ [] }
    {
        self.places[self.count] = slot;
        self.count += 1;
    }

    // The slot of a key comes behind the others, if some bytes wait in it.
    pub fn push_key(&mut self, x: u32)
        requires { length self.old ≤ listed }
        ensures { self.new ≡ self.old ++ slot_of_key x }
    {
        if LEAST <= x {
            self.push((LAST - x % LEAST) as u8);
        }
    }

    // A slot put in where it belongs among the others, whose keys fall: what it is ahead of moves on by one place.
    pub fn put_in(&mut self, state: &Memory, slot: u8)
        requires { (length self.old ≤ listed) × (slot < slots) × FallingLine (bytes_at state.now) (length self.old) self.old }
        ensures { self.new ≡ put_in (key (bytes_at state.now)) slot self.old }
    {
        let mut held = slot;
        for k in 0..self.count {
            let (first, second) = in_order(state, self.places[k], held);
            self.places[k] = first;
            held = second;
        }
        self.push(held);
    }

    // The last key, and the number above all keys where there is none.
    pub fn least(&self, state: &Memory) -> u32
        requires { FallingLine (bytes_at state.now) (length self.now) self.now }
        ensures { result ≡ least_of (key (bytes_at state.now)) self.now }
    {
        if self.count == 0 {
            return TOP;
        }
        key_at(state, usize::from(self.places[self.count - 1]))
    }

    // The first five.
    pub fn cut(&mut self)
        ensures { self.new ≡ take listed self.old }
    {
        self.count = self.count.min(LISTED);
    }

    // The notes of a memory list these slots.
    pub fn store(&self, state: &mut [u8])
        requires { (length state.old ≡ memory_length) × (length self.now ≤ listed) }
        ensures { Lists self.now state.old state.new }
    {
        state[LISTED_COUNT] = self.count as u8;
        state[FULLEST..FULLEST + LISTED].copy_from_slice(&self.places[..LISTED]);
    }
}

// Of two slots, the one with the greater key, and the other.
fn in_order(state: &Memory, t: u8, other: u8) -> (u8, u8)
    requires { (t < slots) × (other < slots) }
    ensures { result ≡ cond (ltb (key (bytes_at state.now) t) (key (bytes_at state.now) other)) (other, t) (t, other) }
{
    if key_at(state, usize::from(t)) < key_at(state, usize::from(other)) {
        (other, t)
    } else {
        (t, other)
    }
}
