// Round sheets (02 §9): whether a list of row numbers is the visits of one round with every row always waiting.
//
// The rows of each column are written once into a line of their own. Then the round is walked position by position: the line of its column is held
// against the list, place by place, and the walk ends at the first wrong place. So the time is by the shorter of list and round and by the positions,
// never by rows that are not visited. Nothing is allocated, and a list may have any length and any numbers.
#![tactic(auto)]

ghost use Rattle.std.specs.Prelude.{◌≡◌, ◌+◌, ◌≤◌, length, IfOk};
ghost use Rattle.spread.specs.Round.{order_all, round_of};
ghost use Rattle.sheet.specs.Sheet.{rows_most, columns_on_sheet, any_bad, sheet_call};
ghost use Rattle.sheet.specs.Lines.{Laid};
ghost use Rattle.sheet.specs.Matching.{matched};
ghost use Rattle.sheet.specs.Told.{sheet_told};

use answers::Refusal;
use bits::order_of;
use line::Line;
use spread::jump::column_at;
use spread::outside;

mod line; // line.rt: the rows of one column

// The most weights of a sheet, and the heaviest.
pub const ROWS: usize = 64;

pub const HEAVIEST: u32 = 4095;

const COLUMNS: usize = 12;

// Whether any weight is 0 or above the heaviest. All are asked: several at once take less time than a stop at the first.
fn any_bad(weights: &[u32]) -> bool
    ensures { result ≡ any_bad weights.now }
{
    weights
        .iter()
        .fold(false, |bad, weight| bad | outside(1, HEAVIEST, *weight))
}

// The order of rows with these weights: the number of bits of their union.
fn order_all(weights: &[u32]) -> u32
    ensures { result ≡ order_all weights.now }
{
    order_of(weights.iter().fold(0, |union, weight| union | weight))
}

// A line held against the list from a place on, where the list has room for it: the place behind it, or the first wrong place.
fn hold_whole(line: &[u8], rows: &[u32], start: usize) -> Result<usize, usize>
    requires { start + length line.now ≤ length rows.now }
    ensures found { result ≡ matched rows.now start line.now }
    ensures behind { IfOk result (λ next. next ≡ start + length line.now) }
{
    for i in 0..line.len() {
        if rows[start + i] != u32::from(line[i]) {
            return Err(start + i);
        }
    }
    Ok(start + line.len())
}

// A line held against the list from a place on: the place behind it, or the first wrong place. Many lines of a sparse sheet are empty or short, so these
// are made cheap: an empty one is done at once, and the list's end is asked for once a line.
fn hold(line: &[u8], rows: &[u32], start: usize) -> Result<usize, usize>
    requires { start ≤ length rows.now }
    ensures found { result ≡ matched rows.now start line.now }
    ensures within { IfOk result (λ next. next ≤ length rows.now) }
{
    if line.is_empty() {
        return Ok(start);
    }
    if rows.len() < start + line.len() {
        hold_whole(&line[..rows.len() - start], rows, start)?;
        return Err(rows.len());
    }
    hold_whole(line, rows, start)
}

// The lines of the first k columns, in the room lent for them: given back, they would stand twice on the stack.
fn lay(weights: &[u32], k: u32, lines: &mut [Line; COLUMNS])
    requires { (length weights.now ≤ rows_most) × (k ≤ columns_on_sheet) }
    ensures { Laid weights.now lines.new k }
{
    for column in 0..k {
        lines[column as usize].lay(weights, column);
    }
}

// The visits of a round of these weights held against the list.
fn round(weights: &[u32], rows: &[u32]) -> Result<usize, usize>
    requires { (length weights.now ≤ rows_most) × (order_all weights.now ≤ columns_on_sheet) }
    ensures { result ≡ matched rows.now 0 (round_of weights.now) }
{
    let k = order_all(weights);
    // 2^k, from above: with 1 << k each turn of the loop would shift.
    let end = (HEAVIEST + 1) >> (COLUMNS as u32 - k);
    let mut lines = [Line::new(); COLUMNS];
    lay(weights, k, &mut lines);
    let mut at = 0;
    for position in 1..end {
        at = hold(lines[column_at(k, position) as usize].rows(), rows, at)?;
    }
    Ok(at)
}

// Accepts exactly the visits of one round of rows with these weights, in joining order. Else names the first wrong place, which is the one behind the last
// where the list is too short. Refused for more than 64 weights, then for a weight that is not 1 to 4,095.
pub fn check(weights: &[u32], rows: &[u32]) -> Result<Option<u32>, Refusal>
    ensures { sheet_told result ≡ sheet_call weights.now rows.now }
{
    if ROWS < weights.len() {
        return Err(Refusal::TooMany);
    }
    if any_bad(weights) {
        return Err(Refusal::BadWeight);
    }
    Ok(match round(weights, rows) {
        Ok(place) if place == rows.len() => None,
        Ok(place) => Some(place as u32),
        Err(place) => Some(place as u32),
    })
}
