// Two printers' handshake without octets: the calls' acts, what they must keep to, and the theorems on every list of them. Definitions and proofs only.
#![tactic(auto)]
