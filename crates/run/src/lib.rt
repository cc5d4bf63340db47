// Demand 3: specs/Demand.antt states it of every run, proofs/Demand.antt proves it. No code.

#![tactic(auto)]
