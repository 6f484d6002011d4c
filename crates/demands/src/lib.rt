// Statements over the definitions that the contracts cite, with their proofs: the owner's third demand, that repeated links count once, and
// what lists of calls keep. There is no code here.
#![tactic(auto)]
