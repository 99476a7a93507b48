// The three demands are claims about the step of one line (specs/Demands.antt), proved in proofs/Demands.antt: no function stands here.
#![tactic(auto)]
