// What maptab prints: the lines of its output, as many at a time as there is room for.
#![tactic(auto)]

ghost use Rattle.std.specs.Prelude.{◌≡◌, ◌+◌, ◌≤◌, ◌<◌, length};
ghost use Rattle.monomial.specs.Count.{count};
ghost use Rattle.text.specs.Text.{Tabled};
ghost use Rattle.text.specs.Writing.{SameBuffer};
ghost use Rattle.sheet.specs.Sheet.{lines_from, sheet_from};
ghost use Rattle.sheet.specs.Part.{Ranged, Prepared, Prepared-prop, Printed, output_lines, output_from};

use answer::Refusal;
use counts::Sizes;
use text::Writer;

// What is decided on the input, and a slice that begins with the table of its sheet.
#[derive(Clone, Copy)]
pub struct Output<'a> {
    pub d: Result<Sizes, Refusal>,
    pub table: &'a [u16],
    pub ghost prepared: { Prepared d table.now } by { Prepared-prop d table.now },
}

// How many lines are printed: one of a refusal, and of a sheet one more than it has monomials. N is looked up, so that
// a caller need not have it right.
pub fn line_count(d: Result<Sizes, Refusal>) -> usize
    requires { Ranged d }
    ensures { result ≡ output_lines d }
{
    match d {
        Err(_) => 1,
        Ok(z) => counts::count(z.n, z.v) + 1,
    }
}

impl Output<'_> {
    // Writes the lines from index k on, as many as there is room for: at least one where the buffer has
    // 64 bytes, which are enough for any line. Answers the index of the line after them.
    pub fn next_part(self, out: &mut Writer, k: usize) -> usize
        requires { out.old.at ≡ 0 }
        ensures printed { Printed (output_from self.entry.d) (output_lines self.entry.d) k
            out.old.out.now out.new.out.now result out.new.at }
        ensures k_lt_next { k < output_lines self.entry.d → 64 ≤ length out.old.out.now → k < result }
        ensures kept { SameBuffer out.old out.new }
    {
        if line_count(self.d) <= k || out.room() < 64 {
            return k;
        }
        match self.d {
            Err(r) => {
                out.refused(r);
                1
            }
            Ok(z) => sheet_part(out, self.table, counts::table_sizes(z.n, z.v), k),
        }
    }
}

// Writes the lines of a sheet from index k on: the first line alone, the others as many as there is
// room for.
fn sheet_part(out: &mut Writer, table: &[u16], z: Sizes, k: usize) -> usize
    requires { Tabled z.n z.v z.count table.now × (k ≤ z.count) × (out.old.at ≡ 0) × (64 ≤ length out.old.out.now) }
    ensures printed { Printed (sheet_from z.n z.v) (z.count + 1) k
        out.old.out.now out.new.out.now result out.new.at }
    ensures k_lt_next { k < result }
    ensures kept { SameBuffer out.old out.new }
{
    if k < 1 {
        out.header(z);
        return 1;
    }
    some_lines(out, table, z, k - 1) + 1
}

// Writes the lines of the monomials from index j on, as many as there is room for: at least one where
// the buffer has 64 bytes.
fn some_lines(out: &mut Writer, table: &[u16], z: Sizes, j: usize) -> usize
    requires { Tabled z.n z.v z.count table.now × (j ≤ z.count) × (out.old.at ≡ 0) }
    ensures printed { Printed (lines_from z.n z.v) z.count j
        out.old.out.now out.new.out.now result out.new.at }
    ensures j_lt_next { j < z.count → 64 ≤ length out.old.out.now → j < result }
    ensures kept { SameBuffer out.old out.new }
{
    for next in j..z.count {
        if out.room() < 64 {
            return next;
        }
        out.monomial_line(table, z, next);
    }
    z.count
}
