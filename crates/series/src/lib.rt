// Series as words: reading and writing their images.
#![tactic(auto)]

pub mod word;
pub mod write;
