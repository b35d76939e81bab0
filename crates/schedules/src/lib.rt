// Passes on disjoint intervals, handed out in any order and on copies of a plane, as theorems over the records that the
// call `pass` ensures. No code of its own: specs/ states what is handed out, and proofs/ that it ends alike.

#![tactic(auto)]
