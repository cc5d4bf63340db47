// The cases that 01 marks to be proved, as a theorem of specs/Cases.antt. No code.

#![tactic(auto)]
