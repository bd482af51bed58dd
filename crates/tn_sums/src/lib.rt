//! Sums over the numbers below a bound, and over lists. There is no code here: the proofs of placements and of routes cite
//! these definitions and lemmas.
#![tactic(auto)]
