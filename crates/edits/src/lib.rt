// What an edit means and the theorems about it; there is no code yet.
#![tactic(auto)]
