// The worked examples are theorems about the definitions; there is no code.
#![tactic(auto)]
