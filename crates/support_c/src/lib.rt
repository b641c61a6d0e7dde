// What the archive of support's entries for C exports: the functions of crate support, under their own names, and nothing else. include/plain.h declares them.
//
// Twins, which the C interface needs, as crate driver_c's: each calls the function of its name and states its contract again, word for word.
#![tactic(auto)]

ghost use Rattle.std.specs.Prelude.{◌≡◌};
ghost use Rattle.rules.specs.Calls.{put_call};
ghost use Rattle.rules.specs.Next.{next_call};
ghost use Rattle.memory.specs.Memory.{on};
ghost use Rattle.driver.specs.Entered.{entry, entered, put_bytes, next_bytes};

// Adds a record. Answer: serial, number now waiting.
#[unsafe(no_mangle)]
pub extern "C" fn plain_put(
    state: &mut [u8],
    slot: u32,
    ticket: u32,
    length: u32,
    reference: u32,
    answer: &mut [u8],
) -> u32
    ensures { entry result state.new answer.new ≡ entered 8 put_bytes (on (put_call slot ticket length reference) state.old) state.old answer.old }
{
    support::plain_put(state, slot, ticket, length, reference, answer)
}

// Takes the next record to send off its queue. Answer: slot, ticket, length, reference, serial, 1 if this send started a visit else 0, terms taken.
#[unsafe(no_mangle)]
pub extern "C" fn plain_next(state: &mut [u8], answer: &mut [u8]) -> u32
    ensures { entry result state.new answer.new ≡ entered 28 next_bytes (on next_call state.old) state.old answer.old }
{
    support::plain_next(state, answer)
}
