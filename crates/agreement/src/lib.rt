// Demand 3 over every list of calls of two printers. Definitions and proofs only.
#![tactic(auto)]
