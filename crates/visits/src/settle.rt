// The record sent leaves its queue, the channel pays for it, and its visit goes on or ends; with the last record the row leaves. What becomes of the order
// then is another file's (order.rt).
//
// The order and the scan point with the visit open are stored first, so that the memory is that of a state at every step.
ghost use Rattle.std.specs.Prelude.{◌≡◌, cond, List, [], ◌∷◌, ◌≤◌, ◌<◌, leb, length};
ghost use Rattle.std.proofs.Math.Option.{none, some};
ghost use Rattle.lists.specs.Slots.{occurs};
ghost use Rattle.rules.specs.Numbers.{slots};
ghost use Rattle.rules.specs.State.{Record, Channel, State, at, with_channel, visit_number};
ghost use Rattle.rules.specs.Next as rules;
ghost use Rattle.memory.specs.Layout.{bytes_of, base_length};
ghost use Rattle.memory.specs.Reading.{first_at, row_count_at, rows_at};
ghost use Rattle.memory.specs.Head.{head_of};
ghost use Rattle.memory.specs.Edits.{row_gone};
ghost use Rattle.memory.specs.Fits.{Fits};
ghost use Rattle.visits.specs.Settle.{Settles, pointed, Settling, rowless, unordered};

use super::choose::Chosen;
use memory::heads::{Head, store_head, waiting_of};
use memory::layout::Base;
use memory::point::{Scan, store_order, store_scan};
use memory::records::{load_record, take_record};
use memory::rows::leave_row;
use rules::cost_of;

// The oldest record of the slot chosen leaves its place, and the visit is settled by what still waits, but for the order. The head has paid; the scan point chosen
// has the visit open. (The head is not stored yet when the record leaves.)
pub fn settle(state: &mut Base, chosen: Chosen, place: usize, head: Head)
    requires { Settles state.old chosen.slot head chosen.order chosen.scan × (place ≡ first_at state.old chosen.slot) }
    ensures { (z : Settles state.old chosen.slot head chosen.order chosen.scan)
        → state.new ≡ bytes_of (unordered z.rest (pointed z) chosen.slot z.channel) }
{
    store_order(state, chosen.order);
    store_scan(state, chosen.scan);
    take_record(state, chosen.slot, place);
    visit_settled(state, chosen, place, head);
}

// The visit goes on or ends, by what still waits.
fn visit_settled(state: &mut Base, chosen: Chosen, place: usize, head: Head)
    requires { Settling state.old chosen.slot head chosen.scan × (place ≡ first_at state.old chosen.slot) }
    ensures { (z : Settling state.old chosen.slot head chosen.scan)
        → state.new ≡ bytes_of (unordered z.channel.waiting z.state chosen.slot z.channel) }
{
    if waiting_of(state, chosen.slot) == 0 {
        row_left(state, chosen, head);
    } else {
        row_stays(state, chosen, place, head);
    }
}

// "If no record is left, the row leaves, its deficit is 0, the visit ends, a closing slot is freed".
fn row_left(state: &mut Base, chosen: Chosen, head: Head)
    requires { (z : Settling state.old chosen.slot head chosen.scan) × (z.channel.waiting ≡ []) }
    ensures { (z : Settling state.old chosen.slot head chosen.scan) → z.channel.waiting ≡ [] → state.new ≡ bytes_of (rowless z.state chosen.slot z.channel) }
{
    row_gone(state, chosen.slot, head);
    let scan = chosen.scan;
    store_scan(state, Scan { visit: 0, ..scan });
}

// The row leaves, and its channel is emptied.
fn row_gone(state: &mut Base, slot: usize, head: Head)
    requires { (slot < slots) × (row_count_at state.old ≤ slots) × (1 ≤ occurs slot (rows_at state.old)) }
    ensures { (s : State) (c : Channel) → Fits s → state.old ≡ bytes_of s → occurs slot s.scan.to_visit ≡ 0 → head ≡ head_of c → (at s.channels slot).waiting ≡ []
        → state.new ≡ bytes_of (with_channel (row_gone s slot) slot (rules.emptied c.kind c)) }
{
    let left = emptied(head);
    leave_row(state, slot);
    store_head(state, slot, left);
}

// "its deficit is 0", and a closing slot is freed: it keeps its ticket and nothing else.
fn emptied(head: Head) -> Head
    ensures { (c : Channel) → head ≡ head_of c → result ≡ head_of (rules.emptied c.kind c) }
{
    if head.kind == 1 {
        return Head { deficit: 0, ..head };
    }
    Head {
        kind: 0,
        weight: 0,
        deficit: 0,
        serial: 0,
        ..head
    }
}

// "Otherwise the visit stays open exactly if the new head's length is at most the deficit." (By 02 §1 its cost.) The new head has moved down to the old one's place.
fn row_stays(state: &mut Base, chosen: Chosen, place: usize, head: Head)
    requires { (z : Settling state.old chosen.slot head chosen.scan) × (0 < length z.channel.waiting) × (place ≡ first_at state.old chosen.slot) }
    ensures { (z : Settling state.old chosen.slot head chosen.scan) (h : Record) (rest : List Record) → z.channel.waiting ≡ h ∷ rest
        → state.new ≡ bytes_of (rules.row_stays z.state chosen.slot h z.channel) }
{
    let next = load_record(state, place);
    let cost = cost_of(next.length);
    let visit = visit_left(chosen.slot, cost, head.deficit);
    let scan = chosen.scan;
    store_head(state, chosen.slot, head);
    store_scan(state, Scan { visit, ..scan });
}

// The number of the visit that stays open: one more than the slot, and 0 for none. (No Option: it is the byte the memory holds, as the definition in_numbers says.)
fn visit_left(slot: usize, cost: u32, deficit: u16) -> u8
    requires { slot < slots }
    ensures { result ≡ visit_number (cond (leb cost deficit) (some slot) none) }
{
    if cost <= u32::from(deficit) {
        slot as u8 + 1
    } else {
        0
    }
}
