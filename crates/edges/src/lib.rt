// The edges of the rules as one table of cases, computed over the definitions of calls and rules. Definitions and proofs only.
#![tactic(auto)]
