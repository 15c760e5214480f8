// Printing the words of a result.
use crate::call::Operation;
use std::io;

// What stands before the item of index i.
fn comma(i: usize) -> &'static str {
    if 0 < i { "," } else { "" }
}

// The entries of a series, as `coefficient at position`.
fn series(rt: &impl Print, words: &[u32]) -> io::Result<()> {
    let entries = match words.split_first() {
        Some((m, entries)) => &entries[..entries.len().min(*m as usize)],
        None => words,
    };
    if entries.is_empty() {
        print!(rt; " zero")?;
    }
    for (i, w) in entries.iter().enumerate() {
        let comma = comma(i);
        let c = *w % 65536;
        let p = *w / 65536;
        print!(rt; "{comma} {c} at {p}")?;
    }
    Ok(())
}

// The components of a map, each of r words, a line for each.
fn components(rt: &impl Print, words: &[u32], r: usize) -> io::Result<()> {
    if r == 0 {
        return Ok(());
    }
    for component in words.chunks_exact(r) {
        print!(rt; "   ")?;
        series(rt, component)?;
        println!(rt; "")?;
    }
    Ok(())
}

// The words of a table, where they fit a line.
fn table(rt: &impl Print, words: &[u32]) -> io::Result<()> {
    let n = words.len();
    print!(rt; "    {n} words")?;
    if n <= 64 {
        for (i, w) in words.iter().enumerate() {
            let comma = comma(i);
            print!(rt; "{comma} {w}")?;
        }
    }
    println!(rt; "")
}

// What the call wrote, in the form that the operation, a name that was read, has for it: one match.
pub(crate) fn result(rt: &impl Print, o: Operation, v: u32, words: &[u32]) -> io::Result<()> {
    let n = words.len();
    match o {
        Operation::BuildTable => table(rt, words),
        Operation::CheckTable => Ok(()),
        Operation::Compose | Operation::Invert => {
            components(rt, words, n.checked_div(v as usize).unwrap_or(n))
        }
        _ => components(rt, words, n),
    }
}
