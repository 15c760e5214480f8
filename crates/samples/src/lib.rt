// The starred samples of 01 as rows of one list (specs/Rows), every row proved (proofs/Every).
#![tactic(auto)]
