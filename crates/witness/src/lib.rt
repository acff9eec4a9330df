// Handshakes by octets, lists of calls that keep to demand 3's premises: in group 21; once more, which shows that the mark is needed; between unlike forms, one without group 21. Definitions and proofs only.
#![tactic(auto)]
