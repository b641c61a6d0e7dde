// The entries for C of the matrix by hand, and nothing else: include/plain.h declares them. They are the driver's Put and Next, worked out on paper.
//
// An archive of its own (crate support_c): the adapter's must not hold the table of terms (document 02, §2). The contracts are those of `uplink_put` and
// `uplink_next`, so numbers, answers and states are theirs, for any bytes lent.
#![tactic(auto)]

ghost use Rattle.std.specs.Prelude.{◌≡◌};
ghost use Rattle.rules.specs.Calls.{put_call};
ghost use Rattle.rules.specs.Next.{next_call};
ghost use Rattle.memory.specs.Memory.{on};
ghost use Rattle.driver.specs.Entered.{entry, entered, put_bytes, next_bytes};

use driver::fields::{told, wrong_length};

// Adds a record. Answer: serial, number now waiting.
#[unsafe(no_mangle)]
pub extern "C" fn plain_put(
    state: &mut [u8],
    slot: u32,
    ticket: u32,
    length: u32,
    reference: u32,
    answer: &mut [u8],
) -> u32
    ensures { entry result state.new answer.new ≡ entered 8 put_bytes (on (put_call slot ticket length reference) state.old) state.old answer.old }
{
    if answer.len() != 8 {
        return wrong_length();
    }
    told(
        answer,
        plain::put::put(state, slot, ticket, length, reference),
    )
}

// Takes the next record to send off its queue. Answer: slot, ticket, length, reference, serial, 1 if this send started a visit else 0, terms taken.
#[unsafe(no_mangle)]
pub extern "C" fn plain_next(state: &mut [u8], answer: &mut [u8]) -> u32
    ensures { entry result state.new answer.new ≡ entered 28 next_bytes (on next_call state.old) state.old answer.old }
{
    if answer.len() != 28 {
        return wrong_length();
    }
    told(answer, plain::next::next(state))
}
