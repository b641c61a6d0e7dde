// The reader of a parked image (document 02, §6): the memory of the state that any bytes stand for, or 15.
//
// One loop reads the parts of a head, of a slot's entry and of a record in every version. The image is of the memory's base alone: the reader works the
// notes out. What an image is, and which state any bytes stand for, is image's to say; specs/ has what is known while a memory is built from one, and
// proofs/ shows that of a sound state's image it becomes that state's memory.
#![tactic(auto)]

pub mod taking; // taking.rt: numbers in bytes, taken from a place of any bytes
pub mod decode; // decode.rt: a memory's base built from an image
pub mod notes; // notes.rt: the notes behind it, worked out afresh
pub mod reader; // reader.rt: the memory of an image
