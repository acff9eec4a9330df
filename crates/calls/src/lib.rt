// The calls, as definitions: what each answers and the table that it leaves (specs/Calls). Their code is in `engine`.
#![tactic(auto)]
