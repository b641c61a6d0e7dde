// The parked image of a state (document 02, §6): what it is, and its writer.
//
// An image is parts side by side: a number each, in so many bytes. A version is a choice of widths, so one loop writes the parts of a head and of a
// slot's entry in every version. specs/ says what an image is, and which state any bytes stand for; proofs/ shows that reading what was written
// gives the same state, and that each sound state has one image. It is of the memory's base alone.
#![tactic(auto)]

pub mod parts; // parts.rt: numbers in bytes, put into a buffer
pub mod version; // version.rt: the versions of an image
pub mod writer; // writer.rt: the image of a lent memory

// The bytes of a record.
pub const RECORD_BYTES: usize = 6;
