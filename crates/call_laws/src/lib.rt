// What holds of every call: laws over the definitions of the calls alone, and so over the code.
#![tactic(auto)]
