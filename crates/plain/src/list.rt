// "the slots still to be visited in this scan", on paper: a mark, 1 or 0, beside each row.
//
// Mark r is that of row r. The lent memory keeps the list as a mask of slots; only `marks_of` and `mask_of` know that.
ghost use Rattle.std.specs.Prelude.{◌≡◌, ◌≤◌};
ghost use Rattle.bits.specs.Mask.{mask_of};
ghost use Rattle.rules.specs.Numbers.{slots};
ghost use Rattle.memory.specs.Reading.{in_mask, state_of};
ghost use Rattle.memory.specs.Search.{RowsWithin};
ghost use Rattle.plain.specs.Marks.{marks_in, first_mark};

use super::matrix::bit_at;
use bits::with_slot;
use memory::layout::Base;
use memory::rows::row_count;
use memory::search::row_at;
use rules::SLOTS;

// A mark for every row that there can be: the list, and a column of the matrix too.
pub type Marks = [u8; SLOTS];

// The list as the memory has it: a row's mark is the bit of its slot.
pub fn marks_of(state: &Base, mask: u64) -> Marks
    requires { RowsWithin state.now }
    ensures { marks_in result (state_of state.now).rows ≡ in_mask mask (state_of state.now).rows }
{
    let mut list: Marks = [0; SLOTS];
    for row in 0..row_count(state) {
        let slot = row_at(state, row);
        list[row] = bit_at(mask, slot as u32);
    }
    list
}

// The list as the memory keeps it: the slots of the rows that have a mark.
pub fn mask_of(state: &Base, list: &Marks) -> u64
    requires { RowsWithin state.now }
    ensures { result ≡ mask_of (marks_in list.now (state_of state.now).rows) }
{
    let mut mask = 0;
    for row in (0..row_count(state)).rev() {
        let slot = row_at(state, row);
        if list[row] == 1 {
            mask = with_slot(mask, slot as u32);
        }
    }
    mask
}

// The first of so many rows that has a mark, if one has.
pub fn first_marked(list: &Marks, count: usize) -> Option<usize>
    requires { count ≤ slots }
    ensures { result ≡ first_mark list.now count }
{
    list[..count].iter().position(|mark| *mark == 1)
}
