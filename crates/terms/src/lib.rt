// Terms looked up in a table, for whoever works odd orders out on paper (document 02, §5). The scheduler works a term out from its position
// (spread::term) and does not link this crate.
//
// A caller copies the table once, keeps the copy in a local and looks its terms up there, one after the other.
#![tactic(auto)]

ghost use Rattle.std.specs.Prelude.{◌≡◌, ◌^◌, ◌≤◌, ◌<◌};
ghost use Rattle.spread.specs.Sequence.{spread, term};
ghost use Rattle.terms.specs.Table.{table_order};

pub mod table; // table.rt: S(12), term by term

// The term at a position, looked up in a copy of the table.
pub fn term_in(terms: &[u8; 4095], position: usize) -> u8
    requires { (terms.now ≡ spread table_order) × (1 ≤ position) × (position < 2 ^ table_order) }
    ensures { result ≡ term position }
{
    terms[position - 1]
}
