// Next: the slot is chosen, its head record is sent and paid for, the visit is settled, and the order is worked out again.
ghost use Rattle.std.specs.Prelude.{◌≡◌, ◌+◌, ◌-◌, ◌*◌, ◌%◌, ◌<◌, ◌≤◌, false, length};
ghost use Rattle.rules.specs.Numbers.{slots, granted, serials, grant_limit};
ghost use Rattle.rules.specs.Next.{next_call};
ghost use Rattle.memory.specs.Layout.{base_length, bytes_of};
ghost use Rattle.memory.specs.Memory.{replied, replied_base, on};
ghost use Rattle.memory.specs.Reading.{waiting_at, state_of};
ghost use Rattle.uplink.specs.Holds.{TakesCalls, TakesSteps};
ghost use Rattle.uplink.specs.Told.{next_told, leaving};
ghost use Rattle.uplink.specs.NextSteps.{Sends, SentFits, SentNoted};
ghost use Rattle.visits.specs.Choice.{Chose};
ghost use Rattle.visits.specs.Order.{ordered, Unordered};
ghost use Rattle.visits.specs.Settle.{paid_head};

use super::Sent;
use super::admitted::admitted;
use super::engine::{Engine, Jumping};
use answers::Refusal;
use fullest::noting::shrink;
use memory::heads::{Head, load_head, waiting_of};
use memory::layout::Base;
use memory::point::load_scan;
use memory::records::{first_of, load_record};
use memory::rows::row_count;
use rules::{GRANTED, cost_of};
use visits::choose::Chosen;
use visits::order::{asks, order_found};
use visits::settle::settle;

// Next sends one record: an open visit goes on, or the first slot still to visit starts one, or the first of the next column that has a row.
pub fn next(state: &mut [u8]) -> Result<Sent, Refusal>
    ensures { leaving (next_told result) state.new ≡ on next_call state.old }
{
    next_by::<Jumping>(state)
}

// Next by any engine.
pub fn next_by<E: Engine>(state: &mut [u8]) -> Result<Sent, Refusal>
    ensures { leaving (next_told result) state.new ≡ on next_call state.old }
{
    admitted(state)?;
    next_noted::<E>(state)
}

// Next on a memory that takes calls: on its base, and then the bytes of the slot that sent go down.
fn next_noted<E: Engine>(state: &mut [u8]) -> Result<Sent, Refusal>
    requires { TakesCalls state.old }
    ensures { leaving (next_told result) state.new ≡ replied state.old (next_call (state_of state.old)) }
{
    let told = next_in::<E>(state.first_chunk_mut().unwrap());
    note_sent(state, told);
    told
}

// The notes after a send: the record's bytes are gone from its slot. A refusal leaves them.
pub fn note_sent(state: &mut [u8], told: Result<Sent, Refusal>)
    requires { SentFits state.old told }
    ensures { SentNoted told state.old state.new }
{
    let Ok(sent) = told else {
        return;
    };
    shrink(state, sent.slot as usize, sent.length as u16);
}

// Next on the base of a memory that takes calls.
fn next_in<E: Engine>(state: &mut Base) -> Result<Sent, Refusal>
    requires { TakesSteps state.old }
    ensures { leaving (next_told result) state.new ≡ replied_base state.old (next_call (state_of state.old)) }
{
    if row_count(state) == 0 {
        return Err(Refusal::NoneWaits);
    }
    let scan = load_scan(state);
    let chosen = E::choose(state, scan);
    let sent = send(state, chosen);
    order_again::<E>(state, chosen.slot);
    Ok(sent)
}

// The record of a slot has left, and the order is not worked out yet: it falls where a row left with the record, and is worked out afresh where a round is over.
pub fn order_again<E: Engine>(state: &mut Base, slot: usize)
    requires { Unordered state.old × (slot < slots) }
    ensures { state.new ≡ bytes_of (ordered slot (state_of state.old)) }
{
    if asks(state, slot) {
        let order = E::order_of_rows(state);
        order_found(state, slot, order);
    }
}

// "The head record is sent and its length taken from the deficit": its cost, by 02 §1. Its place is worked out once: no step of a send moves it. The order is
// then still to be worked out.
pub fn send(state: &mut Base, chosen: Chosen) -> Sent
    requires { Chose state.old chosen × ((state_of state.old).parked ≡ false) }
    ensures { Sends state.old chosen result state.new }
{
    let slot = chosen.slot;
    let head = load_head(state, slot);
    let place = first_of(state, slot);
    let first = load_record(state, place);
    let serial = head_serial(state, slot, head.serial);
    let cost = cost_of(first.length);
    let paid = paying(head, chosen.started, cost);
    settle(state, chosen, place, paid);
    Sent {
        slot: slot as u32,
        ticket: head.ticket,
        length: u32::from(first.length),
        reference: first.reference,
        serial,
        started: chosen.started,
        terms: chosen.terms,
    }
}

// Serials go up by one, so the head record's is the next one less the number waiting.
fn head_serial(state: &Base, slot: usize, serial: u16) -> u16
    requires { slot < slots }
    ensures { result ≡ (serial + serials - waiting_at state.now slot) % serials }
{
    let waiting = waiting_of(state, slot);
    serial.wrapping_sub(waiting as u16)
}

// The deficit, with the grant where the visit starts, pays what the record costs.
fn paying(head: Head, started: u32, cost: u32) -> Head
    requires { (head.deficit + started * granted ≤ grant_limit) × (cost ≤ head.deficit + started * granted) }
    ensures { result ≡ paid_head head started cost }
{
    let funded = u32::from(head.deficit) + started * GRANTED;
    Head {
        deficit: (funded - cost) as u16,
        ..head
    }
}
