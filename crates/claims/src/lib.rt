// The three demands on the library, as theorems over the records that the calls' contracts cite. No code of its own:
// specs/Claims.antt states the demands, and proofs/Claims.antt proves them.

#![tactic(auto)]
