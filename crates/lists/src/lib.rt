// Lists: which numbers stand in one, what is true of every element, an element put in or taken out.
//
// There is no code here. specs/ has the definitions, proofs/ their laws; masks, memories and rules above are made of such lists.
#![tactic(auto)]
