// Cases of the public routines, read as text, run and compared: one line of text is one case, which states what a
// correct kernel answers and leaves in every word.
//
//     product 2 1; table 12; first 4: 2 1@1 1@2; second 4: 2 1@1 65520@2; result 4; work 34; finished 4; result 4:
//     2 1@1 65520@3; work 34
//
// (on one line) is the operation with n and v, its slices in the order of 01, and what is stated. A slice is its
// length and its first words, the rest are zero; c@p is the word p * 65,536 + c, and /i goes on at index i. The
// table is built first; its words are changes. Result and work space hold markers before the call. Stated are the
// reported number with the needed words of the result and of the work space, or `refused 7 at 1 1 2`. A colon, a
// comma and a semicolon count as blanks. A line that begins with # is printed as it stands.
#![tactic(auto)]

mod call;
mod line;
mod print;

use std::io;

// Runs the cases on standard input. `show` says whether to print the words of each result.
pub fn run(rt: &(impl Input + Print), show: bool) -> io::Result<()> {
    // One byte more than the longest text that is taken.
    let mut text = [0u8; 262144];
    let got = reading::read_full(&mut rt.reader(), &mut text)?;
    if got == 262144 {
        return println!(rt; "the input is too long");
    }
    line::lines(rt, &text[..got], show)
}
