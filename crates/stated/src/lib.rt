// What a case of the public routines says, read from its text, and the comparison of what came out with what is
// stated. `cases` tells the form of the text and makes the calls.
#![tactic(auto)]

pub mod outcome; // outcome.rt: what a call answers, as numbers
pub mod scan; // scan.rt: blanks, names and numbers
pub mod slices; // slices.rt: the words of a slice
pub mod verdict; // verdict.rt: the comparison
