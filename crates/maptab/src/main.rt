// maptab: reads one line with n and v, and prints the sheet of their monomials (01). What is decided on
// the line is in the contract of `line::decide`, and what is printed, line by line, in those of the crate sheet.
#![tactic(auto)]

ghost use Rattle.std.specs.Prelude.{◌≤◌, ◌<◌, IfOk};
ghost use Rattle.sheet.specs.Part.{Ranged, output_lines};

use answer::Refusal;
use counts::Sizes;
use reading::read_full;
use sheet::{Output, line_count};
use std::io;
use text::Writer;

// The longest line has 6 bytes: a seventh byte shows that there are more.
fn main(rt: HostRuntime) -> io::Result<()> {
    let mut input = [0u8; 7];
    let got = read_full(&mut rt.stdin(), &mut input)?;
    respond(&rt, line::decide(&input[..got]).sizes)
}

// The table is built where the line is not refused.
fn respond(rt: &impl Print, d: Result<Sizes, Refusal>) -> io::Result<()>
    requires { Ranged d }
{
    let mut table = [0u16; 25992];
    if let Ok(z) = d {
        builder::build_table(&mut table, z.n, z.v);
    }
    let output = Output { d, table: &table };
    print_lines(rt, output)
}

// Prints part after part, from the first line on until no line is left.
fn print_lines(rt: &impl Print, output: Output) -> io::Result<()> {
    let lines = line_count(output.d);
    let mut next = 0;
    while next < lines {
        next = print_part(rt, output, next)?;
    }
    Ok(())
}

// Prints the part that begins with the line of index k, and answers the index of the next line.
fn print_part(rt: &impl Print, output: Output, k: usize) -> io::Result<usize>
    requires { k < output_lines output.d }
    ensures { IfOk result (λ next. (k < next) × (next ≤ output_lines output.entry.d)) }
{
    let mut buffer = [0u8; 4096];
    let mut part = Writer {
        out: &mut buffer,
        at: 0,
    };
    let next = output.next_part(&mut part, k);
    rt.write_all(part.written())?;
    Ok(next)
}
