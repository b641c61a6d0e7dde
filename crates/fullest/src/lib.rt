// Who is filling up: the five fullest channels, kept up as the calls change how much waits.
//
// A slot's bytes and its number are one number, its key, so that "most bytes first, the lower slot first on a tie" is: the greater key first. After a call the bytes of
// one slot at most have changed; its entry is moved, and nothing is sorted. specs/ says what a list of the fullest is in terms of keys, proofs/ that it is the rules'
// own `fullest`.
#![tactic(auto)]

pub mod keys; // keys.rt: a slot's key, and the greatest one below a limit
pub mod line; // line.rt: the list while one entry of it is moved
pub mod moving; // moving.rt: the list after the bytes of one slot changed
pub mod noting; // noting.rt: the notes of a memory after that
