// The entries for C, and nothing else: include/uplink.h declares them and docs/ANSWERS.md has every byte of their answers.
//
// An entry is lent the state and an answer buffer. It asks for the buffer's length, calls the proved function of the same name, and puts what that
// answers into the buffer and the number. One contract for all, without a `requires`: the number, the state left and the buffer left are what `entered`
// says of the rules' own call. No archive exports a library's functions: crate driver_c has each of these once more, for the archive of the C entries.
#![tactic(auto)]

ghost use Rattle.std.specs.Prelude.{◌≡◌, []};
ghost use Rattle.spread.specs.Calls.{term_call, lead_call};
ghost use Rattle.rules.specs.Calls.{open_call, put_call, close_call, ask_call, fullest_call};
ghost use Rattle.rules.specs.Next.{next_call};
ghost use Rattle.memory.specs.Memory.{on, start_on};
ghost use Rattle.image.specs.Parked.{park_on, read_on};
ghost use Rattle.sheet.specs.Sheet.{sheet_call};
ghost use Rattle.driver.specs.Entered.{entry, entered, park_entry, park_entered, stateless, start_bytes, open_bytes, put_bytes, close_bytes, next_bytes, ask_bytes, fullest_bytes, term_bytes, lead_bytes, sheet_bytes};

use fields::{told, wrong_length};

pub mod fields; // fields.rt: numbers and fields

// Makes the state fresh, of an edition. It has no answer buffer.
#[unsafe(no_mangle)]
pub extern "C" fn uplink_start(state: &mut [u8], edition: u32) -> u32
    ensures { entry result state.new [] ≡ entered 0 start_bytes (start_on edition state.old) state.old [] }
{
    told(&mut [], uplink::open::start(state, edition))
}

// Opens a channel. Answer: slot, ticket.
#[unsafe(no_mangle)]
pub extern "C" fn uplink_open(state: &mut [u8], weight: u32, answer: &mut [u8]) -> u32
    ensures { entry result state.new answer.new ≡ entered 8 open_bytes (on (open_call weight) state.old) state.old answer.old }
{
    if answer.len() != 8 {
        return wrong_length();
    }
    told(answer, uplink::open::open(state, weight))
}

// Adds a record. Answer: serial, number now waiting.
#[unsafe(no_mangle)]
pub extern "C" fn uplink_put(
    state: &mut [u8],
    slot: u32,
    ticket: u32,
    length: u32,
    reference: u32,
    answer: &mut [u8],
) -> u32
    ensures { entry result state.new answer.new ≡ entered 8 put_bytes (on (put_call slot ticket length reference) state.old) state.old answer.old }
{
    if answer.len() != 8 {
        return wrong_length();
    }
    told(
        answer,
        uplink::put::put(state, slot, ticket, length, reference),
    )
}

// Closes a channel. Answer: 1 if its slot is free at once, 0 if its records are sent first.
#[unsafe(no_mangle)]
pub extern "C" fn uplink_close(state: &mut [u8], slot: u32, ticket: u32, answer: &mut [u8]) -> u32
    ensures { entry result state.new answer.new ≡ entered 4 close_bytes (on (close_call slot ticket) state.old) state.old answer.old }
{
    if answer.len() != 4 {
        return wrong_length();
    }
    told(answer, uplink::close::close(state, slot, ticket))
}

// Takes the next record to send off its queue. Answer: slot, ticket, length, reference, serial, 1 if this send started a visit else 0, terms taken.
#[unsafe(no_mangle)]
pub extern "C" fn uplink_next(state: &mut [u8], answer: &mut [u8]) -> u32
    ensures { entry result state.new answer.new ≡ entered 28 next_bytes (on next_call state.old) state.old answer.old }
{
    if answer.len() != 28 {
        return wrong_length();
    }
    told(answer, uplink::next::next(state))
}

// Tells of a channel, and changes nothing. Answer: 1 for open or 2 for closing, weight, deficit, number waiting, bytes waiting.
#[unsafe(no_mangle)]
pub extern "C" fn uplink_ask(state: &[u8], slot: u32, ticket: u32, answer: &mut [u8]) -> u32
    ensures { entry result state.now answer.new ≡ entered 20 ask_bytes (on (ask_call slot ticket) state.now) state.now answer.old }
{
    if answer.len() != 20 {
        return wrong_length();
    }
    told(answer, uplink::ask::ask(state, slot, ticket))
}

// Tells of the fullest channels, and changes nothing. Answer: how many are listed, then five times slot, bytes waiting, the fullest first; zeros behind the last.
#[unsafe(no_mangle)]
pub extern "C" fn uplink_fullest(state: &[u8], answer: &mut [u8]) -> u32
    ensures { entry result state.now answer.new ≡ entered 44 fullest_bytes (on fullest_call state.now) state.now answer.old }
{
    if answer.len() != 44 {
        return wrong_length();
    }
    told(answer, uplink::filling::fullest(state))
}

// Parks the queues: the image of the state goes into a buffer, and the state takes only start and the reader from then on. Answer: the image's length.
#[unsafe(no_mangle)]
pub extern "C" fn uplink_park(state: &mut [u8], image: &mut [u8], answer: &mut [u8]) -> u32
    ensures { park_entry result state.new image.new answer.new ≡ park_entered (park_on 1 state.old image.old) state.old image.old answer.old }
{
    if answer.len() != 4 {
        return wrong_length();
    }
    told(answer, image::writer::park(state, image))
}

// Reads an image into the state, whatever stood there. It has no answer buffer.
#[unsafe(no_mangle)]
pub extern "C" fn uplink_unpark(state: &mut [u8], image: &[u8]) -> u32
    ensures { entry result state.new [] ≡ entered 0 start_bytes (read_on image.now state.old) state.old [] }
{
    told(&mut [], reader::reader::unpark(state, image))
}

// The term at a position of the spread sequence of an order. Answer: the term.
#[unsafe(no_mangle)]
pub extern "C" fn uplink_term(order: u32, position: u32, answer: &mut [u8]) -> u32
    ensures { entry result [] answer.new ≡ entered 4 term_bytes (stateless (term_call order position)) [] answer.old }
{
    if answer.len() != 4 {
        return wrong_length();
    }
    told(answer, spread::term(order, position))
}

// The signed lead of two weights and visit counts. Answer: the lead, 8 bytes.
#[unsafe(no_mangle)]
pub extern "C" fn uplink_lead(w1: u32, v1: u32, w2: u32, v2: u32, answer: &mut [u8]) -> u32
    ensures { entry result [] answer.new ≡ entered 8 lead_bytes (stateless (lead_call w1 v1 w2 v2)) [] answer.old }
{
    if answer.len() != 8 {
        return wrong_length();
    }
    told(answer, spread::lead(w1, v1, w2, v2))
}

// Whether a list of row numbers is the visits of one round of rows with these weights. Answer: 1 if accepted else 0, the first wrong place (0 if accepted).
#[unsafe(no_mangle)]
pub extern "C" fn uplink_sheet(weights: &[u32], rows: &[u32], answer: &mut [u8]) -> u32
    ensures { entry result [] answer.new ≡ entered 8 sheet_bytes (stateless (sheet_call weights.now rows.now)) [] answer.old }
{
    if answer.len() != 8 {
        return wrong_length();
    }
    told(answer, sheet::check(weights, rows))
}
