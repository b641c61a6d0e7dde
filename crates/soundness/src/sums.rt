// Whether the lengths are in range, and the bytes waiting of each slot the sum of its records' lengths.
//
// A running total in single steps takes a turn for each record. Eight totals side by side, one for each place of the run modulo eight, are added up
// eight at a time; the total before place p is the sum of the eight that stand from p on. All of it is modulo 65,536, which a slot's sum is below. The
// lengths are tested in the same reading.
//
// The slots are held against these totals in one of two forms. Where few records wait, one loop that ends with the records is cheapest.
// Where many do, the totals behind the slots are put into a line of their own first, since the compiler then compares eight slots at a step.
ghost use Rattle.std.specs.Prelude.{◌≡◌, ℕ, ◌+◌, ◌-◌, ◌%◌, ◌<◌, ◌≤◌, true, ◌&&◌, length, ◌==◌, slice_index};
ghost use Rattle.rules.specs.Numbers.{slots, cells};
ghost use Rattle.memory.specs.Reading.{first_at, bytes_at};
ghost use Rattle.soundness.specs.Check.{all_below, lengths_rule};
ghost use Rattle.soundness.specs.Notes.{length_at, sum_of, sums_rule, idle_rule, between_rule, Strided, Ended, Counted};

use super::lines::{every, length_ok};
use super::{base_of, total_of};
use fullest::keys::two;
use memory::layout::{BYTES, CELLS, Memory, RECORD_LENGTH, WAITING};
use rules::SLOTS;

// Room for the totals before and behind each record.
const TOTALS: usize = CELLS + 8;

// Room for the total before the first slot and behind each.
const ENDS: usize = SLOTS + 1;

// Up to so many records are few: the totals then take 128 bytes, not a kilobyte, that are cleared at each call.
const FEW: usize = 56;

// The eight totals after each of the first `total` records, and whether the lengths are in range: both from one reading of the two lines.
fn stride(state: &Memory, total: usize, v: &mut [u16]) -> bool
    requires { (total ≤ cells) × (total + 8 ≤ length v.old) × ((i : ℕ) → i < 8 → slice_index v.old i ≡ 0) }
    ensures { (result ≡ lengths_rule state.now total) × Strided (length_at state.now) total v.new }
{
    let mut ok = true;
    for p in 0..total {
        let size = two(state[RECORD_LENGTH + p], state[RECORD_LENGTH + CELLS + p]);
        ok = ok & length_ok(size);
        v[p + 8] = v[p].wrapping_add(size);
    }
    ok
}

// The sum of eight from a place on.
fn eight(v: &[u16], at: usize) -> u16
    requires { at + 8 ≤ length v.now }
    ensures { result ≡ sum_of (λ i. slice_index v.now i) at 8 % 65536 }
{
    let mut sum: u16 = 0;
    for k in 0..8 {
        sum = sum.wrapping_add(v[at + k]);
    }
    sum
}

// Whether two totals, before a slot's records and behind them, differ by its bytes waiting.
fn slot_ok(state: &Memory, slot: usize, before: u16, behind: u16) -> bool
    requires { slot < slots }
    ensures { result ≡ ((behind + (65536 - before)) % 65536 == bytes_at state.now slot) }
{
    behind.wrapping_sub(before) == two(state[BYTES + slot], state[BYTES + SLOTS + slot])
}

// Whether no byte waits in a slot.
pub fn no_bytes(state: &Memory, slot: usize) -> bool
    requires { slot < slots }
    ensures { result ≡ (bytes_at state.now slot == 0) }
{
    (state[BYTES + slot] == 0) & (state[BYTES + SLOTS + slot] == 0)
}

// Whether no byte waits where no record does: over all slots, since a fixed count leaves no rest to do one by one.
fn idle_ok(state: &Memory) -> bool
    ensures { result ≡ all_below slots (idle_rule state.now) }
{
    every(SLOTS, |s| (state[WAITING + s] != 0) | no_bytes(state, s))
}

// Whether the bytes waiting of each slot are the sum of its records' lengths, once the eight totals are there. No record waits in the slots behind the
// last one, so the loop ends with the records.
fn slots_ok(state: &Memory, v: &[u16], total: usize) -> bool
    requires { Counted state.now total × (lengths_rule state.now total ≡ true) × Strided (length_at state.now) total v.now }
    ensures { result ≡ sums_rule state.now }
{
    let mut ok = true;
    let mut before: u16 = 0;
    let mut at = 0;
    for s in 0..SLOTS {
        if total <= at {
            break;
        }
        at += usize::from(state[WAITING + s]);
        let behind = eight(v, at);
        ok = ok & slot_ok(state, s, before, behind);
        before = behind;
    }
    ok & idle_ok(state)
}

// Whether the lengths of the first `total` records are in range, and the bytes waiting of each slot the sum of its records' lengths: of few records.
fn few_ok(state: &Memory, total: usize) -> bool
    requires { Counted state.now total × (total ≤ 56) }
    ensures { result ≡ (lengths_rule state.now total && sums_rule state.now) }
{
    let mut v: [u16; FEW + 8] = [0; FEW + 8];
    stride(state, total, &mut v) && slots_ok(state, &v, total)
}

// Puts the total behind each slot's records into a line, until every record is passed, and answers how many slots that took.
fn ends_of(state: &Memory, v: &[u16], total: usize, ends: &mut [u16; ENDS]) -> usize
    requires { Counted state.now total × Strided (length_at state.now) total v.now × (slice_index ends.old 0 ≡ 0) }
    ensures { (result ≤ slots) × (total ≤ first_at state.now result) × Ended state.now result ends.new }
{
    let mut at = 0;
    for s in 0..SLOTS {
        if total <= at {
            return s;
        }
        at += usize::from(state[WAITING + s]);
        ends[s + 1] = eight(v, at);
    }
    SLOTS
}

// Whether the totals before and behind each of the first n slots differ by its bytes waiting: no way out, so that eight are done at a step.
fn between_ok(state: &Memory, ends: &[u16; ENDS], n: usize) -> bool
    requires { n ≤ slots }
    ensures { result ≡ all_below n (between_rule state.now ends.now) }
{
    every(n, |s| slot_ok(state, s, ends[s], ends[s + 1]))
}

// The same of any number of records.
fn many_ok(state: &Memory, total: usize) -> bool
    requires { Counted state.now total }
    ensures { result ≡ (lengths_rule state.now total && sums_rule state.now) }
{
    let mut v: [u16; TOTALS] = [0; TOTALS];
    if !stride(state, total, &mut v) {
        return false;
    }
    let mut ends: [u16; ENDS] = [0; ENDS];
    let n = ends_of(state, &v, total, &mut ends);
    between_ok(state, &ends, n) & idle_ok(state)
}

// The same of all records there are.
pub fn sums(state: &Memory) -> bool
    requires { Counted state.now (first_at state.now slots) }
    ensures { result ≡ (lengths_rule state.now (first_at state.now slots) && sums_rule state.now) }
{
    let total = usize::from(total_of(base_of(state)));
    if total <= FEW {
        return few_ok(state, total);
    }
    many_ok(state, total)
}
