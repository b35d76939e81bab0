// The worked examples of the requirements, computed from the definitions, and examples that meet the hypotheses of the
// claims. No code of its own: specs/Examples.antt states them, and proofs/Examples.antt computes them.

#![tactic(auto)]
