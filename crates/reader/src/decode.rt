// The base of a memory built from an image, part by part.
//
// Nothing is refused here: what has no room is left out, and the reader finds out by writing the memory again. So each contract speaks of good
// images alone: where the image goes on with what is read, the memory goes on to the state with it. Each function answers the bytes behind what it read.
ghost use Rattle.std.specs.Prelude.{◌≡◌, ℕ, ◌<◌, ◌≤◌, false, List, [], ◌∷◌, ◌++◌, length, drop, replicate};
ghost use Rattle.lists.specs.Slots.{occurs, Once, NoneFrom};
ghost use Rattle.rules.specs.Numbers.{slots};
ghost use Rattle.rules.specs.State.{Record, Channel, State, fresh, at as slot_at, with_channel};
ghost use Rattle.rules.specs.Facts.{Sound};
ghost use Rattle.memory.specs.Layout.{bytes_of, base_length};
ghost use Rattle.memory.specs.Reading.{first_at};
ghost use Rattle.memory.specs.Edits.{record_added, queue_now, with_rows, row_joined};
ghost use Rattle.memory.specs.Fits.{SlotFits, Fits};
ghost use Rattle.memory.specs.Head.{head_of};
ghost use Rattle.memory.specs.Point.{in_numbers};
ghost use Rattle.memory.specs.Records.{Ends};
ghost use Rattle.image.specs.Parts.{laid, numbers_of};
ghost use Rattle.image.specs.Image.{record_parts, records_bytes, slot_parts, entry, entries, scan_parts, image_of};
ghost use Rattle.reader.specs.Decoding.{Reached, NoneBehind, with_channels, farthest};

use super::taking::{take_bytes, take_numbers};
use image::version::Version;
use memory::heads::{Head, store_head, waiting_of};
use memory::layout::{Base, CELLS, EDITION, Position, Weight};
use memory::point::{Scan, store_order, store_scan};
use memory::records::append_record;
use memory::rows::{join_row, row_count};
use rules::{ROOM, SLOTS};

// One record more for a slot, at a place of the run.
fn read_record<'a>(memory: &mut Base, image: &'a [u8], slot: usize, place: usize) -> &'a [u8]
    requires { slot < slots }
    ensures { (s : State) (x : Record) (rest : List ℕ) → Fits (record_added s slot x) → Ends memory.old slot place
        → Reached image.now (laid (record_parts x) ++ rest) memory.old s
        → Reached result.now rest memory.new (record_added s slot x) }
{
    let ([length, reference], left) = take_numbers(image, [2, 4]);
    let length = u16::try_from(length).unwrap_or(0);
    let reference = u32::try_from(reference).unwrap_or(0);
    if waiting_of(memory, slot) < ROOM {
        if place < CELLS {
            append_record(memory, slot, place, length, reference);
        }
    }
    left
}

// The records of a slot that has none yet, and behind which none has: the run ends at a place.
fn read_records<'a>(
    memory: &mut Base,
    image: &'a [u8],
    slot: usize,
    place: usize,
    count: u8,
) -> &'a [u8]
    requires { (slot < slots) × (place ≤ farthest) }
    ensures { (s : State) (xs : List Record) (rest : List ℕ) → Fits (queue_now s slot xs) → length xs ≡ count → NoneBehind s slot
        → place ≡ first_at memory.old slots → Reached image.now (records_bytes xs ++ rest) memory.old (queue_now s slot [])
        → Reached result.now rest memory.new (queue_now s slot xs) }
{
    let mut left = image;
    for i in 0..usize::from(count) {
        left = read_record(memory, left, slot, place + i);
    }
    left
}

// The kind and the numbers of a slot, as an entry has them: each where it has room, and 0 elsewhere.
fn head_in(numbers: [u64; 7]) -> Head
    ensures { (n v : ℕ) (c : Channel) → SlotFits c → numbers ≡ n ∷ numbers_of (drop 1 (slot_parts v c)) → result ≡ head_of c }
{
    Head {
        kind: u8::try_from(numbers[1]).unwrap_or(0),
        ticket: u32::try_from(numbers[2]).unwrap_or(0),
        weight: Weight::try_from(numbers[3]).unwrap_or(0),
        deficit: u16::try_from(numbers[4]).unwrap_or(0),
        serial: u16::try_from(numbers[5]).unwrap_or(0),
    }
}

// A slot's entry, for a slot that has no records yet; the run ends at a place.
fn read_slot<'a>(
    memory: &mut Base,
    image: &'a [u8],
    slot: usize,
    place: usize,
    version: Version,
) -> &'a [u8]
    requires { (slot < slots) × (place ≤ farthest) }
    ensures { (s : State) (c : Channel) (rest : List ℕ) → Fits (with_channel s slot c) → (slot_at s.channels slot).waiting ≡ [] → NoneBehind s slot
        → place ≡ first_at memory.old slots → Reached image.now (entry version.number c ++ rest) memory.old s
        → Reached result.now rest memory.new (with_channel s slot c) }
{
    let wide = version.wide();
    let (numbers, left) = take_numbers(image, [version.length_width(), 1, 4, wide, 2, 2, 1]);
    store_head(memory, slot, head_in(numbers));
    let count = u8::try_from(numbers[6]).unwrap_or(0);
    read_records(memory, left, slot, place, count)
}

// "then the 64 slots in turn", into a fresh memory.
fn read_slots(memory: &mut Base, image: &[u8], version: Version)
    ensures { (e : ℕ) (cs : List Channel) → Fits (with_channels (fresh e) cs)
        → Reached image.now (entries version.number cs) memory.old (fresh e)
        → memory.new ≡ bytes_of (with_channels (fresh e) cs) }
{
    let mut left = image;
    let mut place = 0;
    for slot in 0..SLOTS {
        left = read_slot(memory, left, slot, place, version);
        place += waiting_of(memory, slot);
    }
}

// One row more.
fn read_row(memory: &mut Base, slot: u8)
    ensures { (s : State) → Fits s → memory.old ≡ bytes_of s → slot < slots → occurs slot s.rows ≡ 0 → memory.new ≡ bytes_of (row_joined s slot) }
{
    let slot = usize::from(slot);
    if slot < SLOTS {
        if row_count(memory) < SLOTS {
            join_row(memory, slot);
        }
    }
}

// The rows, into a memory that has none.
fn read_rows(memory: &mut Base, rows: &[u8])
    ensures { (s : State) → Once rows.now → NoneFrom slots rows.now → Fits (with_rows s []) → memory.old ≡ bytes_of (with_rows s [])
        → Fits (with_rows s rows.now) × (memory.new ≡ bytes_of (with_rows s rows.now)) }
{
    for slot in rows {
        read_row(memory, *slot);
    }
}

// The scan point, as a head has it: each number where it has room. 255 is no visit, and any other slot is one less than the memory's number for it.
fn scan_in(numbers: [u64; 9]) -> Scan
    ensures { (n m v : ℕ) (s : State) → Fits s → numbers ≡ n ∷ m ∷ numbers_of (scan_parts v s) → result ≡ in_numbers s.scan }
{
    Scan {
        position: Position::try_from(numbers[4]).unwrap_or(0),
        column: u8::try_from(numbers[5]).unwrap_or(0),
        mask: numbers[6],
        visit: u8::try_from(numbers[7]).unwrap_or(255).wrapping_add(1),
    }
}

// A base of zeros becomes that of an image's state: the fresh one of its edition, its slots, its rows, and then the order and the scan point.
pub fn decode(memory: &mut Base, image: &[u8], version: Version)
    requires { memory.old ≡ replicate base_length 0 }
    ensures built { (s : State) → Sound s → s.parked ≡ false → image.now ≡ image_of version.number s → memory.new ≡ bytes_of s }
    ensures same_length { length memory.new ≡ base_length }
{
    let (numbers, left) = take_numbers(image, [1, 4, 1, 1, version.wide(), 1, 8, 1, 1]);
    let count = u8::try_from(numbers[8]).unwrap_or(0);
    let (rows, entries) = take_bytes(left, usize::from(count));
    memory[EDITION] = u8::try_from(numbers[2]).unwrap_or(0);
    read_slots(memory, entries, version);
    read_rows(memory, rows);
    store_order(memory, u8::try_from(numbers[3]).unwrap_or(0));
    store_scan(memory, scan_in(numbers));
}
