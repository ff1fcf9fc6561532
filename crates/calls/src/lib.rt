// What the calls mean, and what follows from it; there is no code.
#![tactic(auto)]
