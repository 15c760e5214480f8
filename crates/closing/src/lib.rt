// Theorems on the calls that no function needs: term 3 of undoing maps, whole (proofs/Closing), and that every call of
// each law finishes where its inputs pass their checks (proofs/..Finishes).
#![tactic(auto)]
