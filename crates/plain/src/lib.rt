// The matrix by hand (document 02, §5): the calls, as one works them out on paper.
//
// The matrix of columns over rows is filled from the lent memory and read in joining order; the order is found by looking for the highest column that is not
// empty; terms come one after the other from the table of S(12). The contracts are the linked engine's own, so for every lent memory the answers and the bytes
// are the same (proofs/SameAsUplink.antt).
#![tactic(auto)]

pub mod matrix; // matrix.rt: the matrix, filled and read
pub mod list; // list.rt: the rows still to visit, a mark each
pub mod scan; // scan.rt: one term after the other
pub mod choose; // choose.rt: which slot sends next
pub mod order; // order.rt: the order, found in the matrix
pub mod engine; // engine.rt: what is worked out by hand
pub mod next; // next.rt: Next
pub mod put; // put.rt: Put
pub mod others; // others.rt: Start, Open, Close, Ask
