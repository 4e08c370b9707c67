#![tactic(auto)]

// A spill file written out by hand, computed from the definitions of spill_form: see proofs/Examples.antt. No code stands here.
