// The writer: the image of a lent memory.
//
// Each function writes on where the one before it ended, and says which bytes it wrote. The image's length is known before the first byte is written, so a
// buffer too short is left as it was.
ghost use Rattle.std.specs.Prelude.{◌≡◌, true, ◌+◌, ◌*◌, ◌≤◌, ◌<◌, length};
ghost use Rattle.lists.specs.Tabs.{tab};
ghost use Rattle.octets.specs.Writing.{Written};
ghost use Rattle.octets.specs.Wrote.{Wrote};
ghost use Rattle.rules.specs.Numbers.{slots, cells};
ghost use Rattle.memory.specs.Names as the;
ghost use Rattle.memory.specs.Reading.{byte_in, slot_in_visit, waiting_at, first_at, record_at, channel_at, state_of};
ghost use Rattle.memory.specs.Memory.{sound_base};
ghost use Rattle.image.specs.Parts.{laid};
ghost use Rattle.image.specs.Image.{record_bytes, records_bytes, fixed, entry, entries, visit_byte, head_parts, image_of};
ghost use Rattle.image.specs.Parked.{parking, stored_base, park_on};
ghost use Rattle.image.specs.Told.{park_told};

use super::RECORD_BYTES;
use super::parts::{Part, put_parts};
use super::version::Version;
use answers::Refusal;
use memory::heads::{load_head, waiting_of};
use memory::layout::{BASE, Base, EDITION, ROWS};
use memory::point::{is_parked, load_order, load_scan};
use memory::records::{first_of, load_record};
use memory::rows::row_count;
use octets::writer::Writer;
use rules::SLOTS;
use soundness::check;

// The records of the run from a place on: "each record's length (2) and reference (4)".
fn put_records(w: &mut Writer<'_>, state: &Base, place: usize, count: usize)
    requires { (place + count ≤ cells) × (w.old.at + record_bytes * count ≤ length w.old.out.now) }
    ensures { Wrote w.old (records_bytes (tab count (λ i. record_at state.now (place + i)))) w.new }
{
    for i in 0..count {
        let cell = load_record(state, place + i);
        w.bytes(&cell.length.to_be_bytes());
        w.bytes(&cell.reference.to_be_bytes());
    }
}

// A slot's entry; its records begin at a place of the run.
fn put_slot(w: &mut Writer<'_>, state: &Base, slot: usize, place: usize, version: Version)
    requires { (slot < slots) × (byte_in the.kind state.now slot ≤ 2) × (place ≡ first_at state.now slot) × (place + waiting_at state.now slot ≤ cells)
        × (w.old.at + (fixed version.number + record_bytes * waiting_at state.now slot) ≤ length w.old.out.now) }
    ensures { Wrote w.old (entry version.number (channel_at state.now slot)) w.new }
{
    let head = load_head(state, slot);
    let count = waiting_of(state, slot);
    let wide = version.wide();
    let parts = [
        Part::new(
            version.length_width(),
            (10 + wide + RECORD_BYTES * count) as u64,
        ),
        Part::new(1, head.kind),
        Part::new(4, head.ticket),
        Part::new(wide, head.weight),
        Part::new(2, head.deficit),
        Part::new(2, head.serial),
        Part::new(1, count as u64),
    ];
    put_parts(w, &parts);
    put_records(w, state, place, count);
}

// "then the 64 slots in turn"
fn put_slots(w: &mut Writer<'_>, state: &Base, version: Version)
    requires { (sound_base state.now ≡ true)
        × (w.old.at + (slots * fixed version.number + record_bytes * first_at state.now slots) ≤ length w.old.out.now) }
    ensures { Wrote w.old (entries version.number (tab slots (channel_at state.now))) w.new }
{
    let mut place = 0;
    for slot in 0..SLOTS {
        put_slot(w, state, slot, place, version);
        place += waiting_of(state, slot);
    }
}

// "the slot in visit or 255", of the memory's number for it, which is one more than the slot and 0 for none.
fn visit_byte(visit: u8) -> u8
    ensures { result ≡ visit_byte (slot_in_visit visit) }
{
    visit.wrapping_sub(1)
}

// The head of an image of so many bytes: all but the rows and the slots.
fn put_head(w: &mut Writer<'_>, state: &Base, version: Version, size: usize)
    requires { (sound_base state.now ≡ true) × (size ≡ length (image_of version.number (state_of state.now))) × (w.old.at + size ≤ length w.old.out.now) }
    ensures { Wrote w.old (laid (head_parts version.number (state_of state.now))) w.new }
{
    let scan = load_scan(state);
    let order = load_order(state);
    let count = row_count(state);
    let edition = state[EDITION];
    let parts = [
        Part::new(1, version.number),
        Part::new(4, (size - 5) as u64),
        Part::new(1, edition),
        Part::new(1, order),
        Part::new(version.wide(), scan.position),
        Part::new(1, scan.column),
        Part::new(8, scan.mask),
        Part::new(1, visit_byte(scan.visit)),
        Part::new(1, count as u64),
    ];
    put_parts(w, &parts);
}

// The rows. (Byte by byte: the writer's `bytes` of lent bytes calls memmove, and the archive may need only memcpy and memset.)
fn put_rows(w: &mut Writer<'_>, rows: &[u8])
    requires { w.old.at + length rows.now ≤ length w.old.out.now }
    ensures { Wrote w.old rows.now w.new }
{
    for row in rows {
        w.byte(*row);
    }
}

// The length of a memory's image.
pub fn length_of(state: &Base, version: Version) -> usize
    requires { sound_base state.now ≡ true }
    ensures { result ≡ length (image_of version.number (state_of state.now)) }
{
    let count = row_count(state);
    let total = first_of(state, SLOTS);
    let wide = version.wide();
    18 + wide + count + SLOTS * (version.length_width() + (10 + wide)) + RECORD_BYTES * total
}

// The image, in a buffer that holds it.
pub fn put_image(buffer: &mut [u8], state: &Base, version: Version, size: usize) -> usize
    requires { (sound_base state.now ≡ true) × (size ≡ length (image_of version.number (state_of state.now))) × (size ≤ length buffer.old) }
    ensures { Written buffer.old 0 (image_of version.number (state_of state.now)) result buffer.new }
{
    let mut w = Writer { out: buffer, at: 0 };
    put_head(&mut w, state, version, size);
    let count = row_count(state);
    put_rows(&mut w, &state[ROWS..ROWS + count]);
    put_slots(&mut w, state, version);
    w.at
}

// The writer of a version: 10, 14, then 16; else the image stands in the buffer from its first byte on, the bytes behind it stay, and the state is parked.
// (The two checks stand here too: uplink's function for them is in a crate above this one.)
pub fn park_version(state: &mut [u8], image: &mut [u8], version: Version) -> Result<u32, Refusal>
    ensures { parking (park_told result) state.new image.new ≡ park_on version.number state.old image.old }
{
    if !check(state) {
        return Err(Refusal::Unsound);
    }
    if is_parked(state) {
        return Err(Refusal::Parked);
    }
    park_on(state.first_chunk_mut().unwrap(), image, version)
}

// The writer on the base of a memory that takes calls: the image is of the base alone, and the notes stay.
fn park_on(state: &mut Base, image: &mut [u8], version: Version) -> Result<u32, Refusal>
    requires { sound_base state.old ≡ true }
    ensures { parking (park_told result) state.new image.new ≡ stored_base (image_of version.number (state_of state.old)) state.old image.old }
{
    let size = length_of(state, version);
    if image.len() < size {
        return Err(Refusal::ShortBuffer);
    }
    put_image(image, state, version, size);
    memory::point::park(state);
    Ok(size as u32)
}

// The writer: "version byte 1".
pub fn park(state: &mut [u8], image: &mut [u8]) -> Result<u32, Refusal>
    ensures { parking (park_told result) state.new image.new ≡ park_on 1 state.old image.old }
{
    park_version(state, image, Version { number: 1 })
}
