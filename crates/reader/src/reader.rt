// The reader: the memory of an image, built aside and looked at before anything is written.
//
// An image is good exactly where the memory built from it is sound and its own image is these bytes again. So no rule of the format is checked one by
// one, in any version: the check of lent memories and the writer say what is good.
ghost use Rattle.std.specs.Prelude.{◌≡◌, true, replicate};
ghost use Rattle.memory.specs.Layout.{memory_length};
ghost use Rattle.memory.specs.Reading.{state_of};
ghost use Rattle.memory.specs.Memory.{same, sound_base};
ghost use Rattle.image.specs.Image.{image_of};
ghost use Rattle.image.specs.Parked.{leaving, read_on};
ghost use Rattle.reader.specs.Received.{Received};
ghost use Rattle.reader.specs.Told.{unpark_told};

use super::decode::decode;
use super::notes::note_all;
use super::taking::byte_at;
use answers::Refusal;
use image::RECORD_BYTES;
use image::version::{NEWEST, Version};
use image::writer::{length_of, put_image};
use memory::layout::{Base, CELLS, LENGTH, Memory};
use rules::SLOTS;
use soundness::check;

// The longest image: each slot a row, and every cell in use.
const LONGEST: usize = 18
    + 2 * NEWEST as usize
    + SLOTS
    + SLOTS * (4 * NEWEST as usize + 8)
    + RECORD_BYTES * CELLS;

// Whether a base's own image is these bytes.
fn is_image(memory: &Base, image: &[u8], version: Version) -> bool
    requires { sound_base memory.now ≡ true }
    ensures { result ≡ same (image_of version.number (state_of memory.now)) image.now }
{
    let size = length_of(memory, version);
    if size != image.len() {
        return false;
    }
    let mut again: [u8; LONGEST] = [0; LONGEST];
    put_image(&mut again, memory, version, size);
    &again[..size] == image
}

// A memory of zeros becomes that of the image's state, or the image is no sound state's.
fn receive(memory: &mut Memory, image: &[u8]) -> bool
    requires { memory.old ≡ replicate memory_length 0 }
    ensures { Received image.now result memory.new }
{
    let Some(version) = Version::of(byte_at(image, 0)) else {
        return false;
    };
    decode(memory.first_chunk_mut().unwrap(), image, version);
    note_all(memory);
    check(memory) && is_image(memory.first_chunk().unwrap(), image, version)
}

// The reader: 10 for the length alone, then 15, and each lent byte stays; else the lent memory becomes that of the image's state.
pub fn unpark(state: &mut [u8], image: &[u8]) -> Result<(), Refusal>
    ensures { leaving (unpark_told result) state.new ≡ read_on image.now state.old }
{
    if state.len() != LENGTH {
        return Err(Refusal::Unsound);
    }
    let mut memory: Memory = [0; LENGTH];
    if !receive(&mut memory, image) {
        return Err(Refusal::BadImage);
    }
    state.copy_from_slice(&memory);
    Ok(())
}
