// The lines of the text: cases, titles, and blank lines.
ghost use Rattle.std.specs.Prelude.{◌≡◌, ◌<◌, false, length, take};

use crate::call::{Call, NAMES, Takes};
use crate::print;
use answer::Setting;
use stated::outcome::Outcome;
use stated::scan::{Cursor, Malformed};
use stated::slices::{MARKER, narrow_all, widen_all};
use stated::verdict::{Claim, judge};
use std::io;

// Why the run of a case ends early.
#[derive(Drop)]
enum Failure {
    Malformed(Malformed),
    Output(io::Error),
}

impl From<Malformed> for Failure {
    fn from(m: Malformed) -> Failure {
        Failure::Malformed(m)
    }
}

impl From<io::Error> for Failure {
    fn from(e: io::Error) -> Failure {
        Failure::Output(e)
    }
}

// The table of a setting, which is built first and then changed as is read; no words where it is not taken.
fn changed_table<'t>(
    cursor: &mut Cursor,
    taken: bool,
    s: Setting,
    table: &'t mut [u16],
) -> Result<&'t [u16], Malformed>
    ensures { taken ≡ false → cursor.new.rest ≡ cursor.old.rest }
{
    if !taken {
        return Ok(&[]);
    }
    let mut words = [0u32; 51500];
    let words = &mut words[..table.len().min(51500)];
    let _ = kernel::build_table(s, table);
    widen_all(table, words);
    let changed = cursor.slice(b"table", words)?;
    narrow_all(changed, table);
    Ok(prefix(table, changed.len()))
}

// A number that is read where the operation takes it; where it does not, nothing is. A closure that answers a part of
// a buffer has no proof yet, so slices have a function of their own.
fn number_if<T: Default, F: FnOnce(&mut Cursor) -> Result<T, Malformed>>(
    cursor: &mut Cursor,
    taken: bool,
    read: F,
) -> Result<T, Malformed>
    requires { F.IsAlwaysCallable read }
    ensures { taken ≡ false → cursor.new.rest ≡ cursor.old.rest }
{
    if taken {
        read(cursor)
    } else {
        Ok(T::default())
    }
}

fn slice_if<'w>(
    cursor: &mut Cursor,
    taken: bool,
    name: &[u8],
    words: &'w mut [u32],
) -> Result<&'w [u32], Malformed>
    ensures { taken ≡ false → cursor.new.rest ≡ cursor.old.rest }
{
    if taken {
        cursor.slice(name, words)
    } else {
        Ok(&[])
    }
}

// What is stated of a call, whose result and work space are needed where it finishes.
fn claim<'w>(
    cursor: &mut Cursor,
    takes: Takes,
    room: usize,
    words: &'w mut [u32],
) -> Result<Claim<'w>, Malformed> {
    let outcome = cursor.outcome()?;
    let done = outcome.0.is_ok();
    let result = slice_if(cursor, done && takes.result, b"result", words)?;
    let work = number_if(cursor, done && takes.work, |c| c.room(b"work", room))?;
    cursor.line_end()?;
    Ok(Claim {
        outcome,
        result,
        work,
    })
}

// The first k items, or all.
fn prefix<T>(s: &[T], k: usize) -> &[T]
    ensures { result.now ≡ take k s.now }
{
    &s[..k.min(s.len())]
}

// The text up to the first semicolon: the operation and its numbers.
fn head(text: &[u8]) -> &[u8] {
    match text.iter().position(|b| *b == b';') {
        Some(k) => &text[..k],
        None => text,
    }
}

// Makes the call that was read and compares what came out. Result and work space hold markers before the call.
// Prints what came out, and answers whether that is right.
fn run_case(
    rt: &impl Print,
    text: &[u8],
    k: u32,
    show: bool,
    call: Call,
    said: Claim,
) -> io::Result<bool> {
    let mut res = [MARKER; 51500];
    let mut work = [MARKER; 208320];
    let came = Outcome::from(call.perform(&mut res, &mut work));
    print!(rt; "{k} ")?;
    rt.write_all(head(text))?;
    print!(rt; ": {came}, ")?;
    let verdict = judge(said, came, &res, &work);
    match verdict {
        Ok(()) => println!(rt; "right")?,
        Err(d) => println!(rt; "WRONG: {d}")?,
    }
    if show && came.0.is_ok() {
        let needed = prefix(&res, said.result.len());
        print::result(rt, call.operation, call.setting.v, needed)?;
    }
    Ok(verdict.is_ok())
}

// The case at the beginning of the text, the k-th.
fn case(rt: &impl Print, text: &[u8], k: u32, show: bool) -> Result<bool, Failure> {
    let mut table = [0u16; 51500];
    let mut first = [0u32; 51500];
    let mut second = [0u32; 51500];
    let mut stated = [0u32; 51500];
    let mut cursor = Cursor { rest: text };
    let operation = cursor.one_of(&NAMES)?;
    let takes = operation.takes();
    let n = cursor.number()?;
    let v = cursor.number()?;
    let setting = Setting { n, v };
    let number = number_if(&mut cursor, takes.number, |c| c.number())?;
    let table = changed_table(&mut cursor, takes.table, setting, &mut table)?;
    let first = slice_if(&mut cursor, takes.first, b"first", &mut first)?;
    let second = slice_if(&mut cursor, takes.second, b"second", &mut second)?;
    let result = number_if(&mut cursor, takes.result, |c| c.room(b"result", 51500))?;
    let work = number_if(&mut cursor, takes.work, |c| c.room(b"work", 208320))?;
    let said = claim(&mut cursor, takes, work, &mut stated)?;
    let call = Call {
        operation,
        setting,
        number,
        table,
        first,
        second,
        result,
        work,
    };
    let right = run_case(rt, text, k, show, call, said)?;
    Ok(right)
}

// A line with its end, and the text behind it.
fn split_line(text: &[u8]) -> (&[u8], &[u8])
    ensures { 0 < length text.now → length result.1.now < length text.now }
{
    match text.iter().position(|b| *b == b'\n') {
        Some(k) => text.split_at(k + 1),
        None => text.split_at(text.len()),
    }
}

// The number of the line in which the text is malformed, from 1.
fn line_number(text: &[u8], m: Malformed) -> usize {
    let read = text.len().saturating_sub(m.left);
    let ended = text[..read].iter().filter(|b| **b == b'\n').count();
    ended.saturating_add(1)
}

pub(crate) fn lines(rt: &impl Print, text: &[u8], show: bool) -> io::Result<()> {
    let mut cases = 0u32;
    let mut right = 0u32;
    let mut rest = text;
    while let Some(b) = rest.first() {
        let (line, next) = split_line(rest);
        if matches!(*b, b'#' | b'\n') {
            rt.write_all(line)?;
        } else {
            cases = cases.saturating_add(1);
            match case(rt, rest, cases, show) {
                Ok(true) => right = right.saturating_add(1),
                Ok(false) => {}
                Err(Failure::Malformed(m)) => {
                    let n = line_number(text, m);
                    return println!(rt; "line {n} is malformed");
                }
                Err(Failure::Output(e)) => return Err(e),
            }
        }
        rest = next;
    }
    println!(rt; "{cases} cases, {right} right")
}
