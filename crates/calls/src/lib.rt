// What holds of a call of the kernel that finished (proofs/FinishedCalls), for the laws of calls. No function needs it.
#![tactic(auto)]
