// The customer's demands over the calls of the other crates. There is no code here: specs/Demands.antt
// has the statements, proofs/Demands.antt shows that they hold.

#![tactic(auto)]
