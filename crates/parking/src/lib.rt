// What the adapter's owner is promised over a firmware change (02 §6), on lent bytes: histories of calls with the writer and the reader of a parked image
// between them.
//
// There is no code here. specs/ says what an act is and where a history begins; proofs/ holds the promises: acts without a beginning are seen as the calls made
// before the parking, so demands 2 and 3 hold of them as they hold of calls; and what is parked and read comes back byte for byte.
#![tactic(auto)]
