// The monomial table, as definitions (specs/) and theorems (proofs/) only: there is no function here.
#![tactic(auto)]
