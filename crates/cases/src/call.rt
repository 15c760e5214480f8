// The operation of a case, the slices that it takes, and the call itself.
use answer::{Answer, Setting};
use stated::slices::{narrow_all, widen_all};

#[derive(Clone, Copy, PartialEq, Eq)]
pub enum Operation {
    BuildTable,
    CheckTable,
    Sum,
    Difference,
    Multiple,
    Derivative,
    Product,
    Bracket,
    Substitute,
    Compose,
    Invert,
}

// The operations by name, with the blank behind it.
pub(crate) static NAMES: [(&[u8], Operation); 11] = [
    (b"build_table ", Operation::BuildTable),
    (b"check_table ", Operation::CheckTable),
    (b"sum ", Operation::Sum),
    (b"difference ", Operation::Difference),
    (b"multiple ", Operation::Multiple),
    (b"derivative ", Operation::Derivative),
    (b"product ", Operation::Product),
    (b"bracket ", Operation::Bracket),
    (b"substitute ", Operation::Substitute),
    (b"compose ", Operation::Compose),
    (b"invert ", Operation::Invert),
];

// What an operation takes: a number behind n and v, and slices.
#[derive(Clone, Copy)]
pub(crate) struct Takes {
    pub(crate) number: bool,
    pub(crate) table: bool,
    pub(crate) first: bool,
    pub(crate) second: bool,
    pub(crate) result: bool,
    pub(crate) work: bool,
}

const NOTHING: Takes = Takes {
    number: false,
    table: false,
    first: false,
    second: false,
    result: false,
    work: false,
};

impl Operation {
    // The result of building is the table.
    pub(crate) fn takes(self) -> Takes {
        match self {
            Operation::BuildTable => Takes {
                result: true,
                ..NOTHING
            },
            Operation::CheckTable => Takes {
                table: true,
                ..NOTHING
            },
            Operation::Sum | Operation::Difference => Takes {
                first: true,
                second: true,
                result: true,
                ..NOTHING
            },
            Operation::Multiple => Takes {
                number: true,
                first: true,
                result: true,
                ..NOTHING
            },
            Operation::Derivative => Takes {
                number: true,
                table: true,
                first: true,
                result: true,
                ..NOTHING
            },
            Operation::Invert => Takes {
                table: true,
                first: true,
                result: true,
                work: true,
                ..NOTHING
            },
            _ => Takes {
                table: true,
                first: true,
                second: true,
                result: true,
                work: true,
                ..NOTHING
            },
        }
    }
}

// A call: its numbers, its inputs, and the lengths of result and work space; not the parts themselves, since the
// buffers are compared whole, also behind the parts. What it does not take is 0 or empty.
#[derive(Clone, Copy)]
pub(crate) struct Call<'a> {
    pub(crate) operation: Operation,
    pub(crate) setting: Setting,
    pub(crate) number: u32,
    pub(crate) table: &'a [u16],
    pub(crate) first: &'a [u32],
    pub(crate) second: &'a [u32],
    pub(crate) result: usize,
    pub(crate) work: usize,
}

// Builds a table in the place of the result.
fn build(s: Setting, res: &mut [u32]) -> Answer {
    let mut words = [0u16; 51500];
    let k = res.len().min(51500);
    let table = &mut words[..k];
    narrow_all(res, table);
    let answer = kernel::build_table(s, table);
    widen_all(table, res);
    answer
}

impl<'a> Call<'a> {
    // The call on parts of the two buffers, with the lengths that are stated. One match: the operation is a name that
    // was read, and a type for each would be chosen by the same match.
    pub(crate) fn perform(self, results: &mut [u32], space: &mut [u32]) -> Answer {
        let Call {
            operation,
            setting: s,
            number,
            table,
            first,
            second,
            result: r,
            work: w,
        } = self;
        let r = r.min(results.len());
        let w = w.min(space.len());
        let res = &mut results[..r];
        let work = &mut space[..w];
        match operation {
            Operation::BuildTable => build(s, res),
            Operation::CheckTable => kernel::check_table(s, table),
            Operation::Sum => kernel::sum(s, first, second, res),
            Operation::Difference => kernel::difference(s, first, second, res),
            Operation::Multiple => kernel::multiple(s, number, first, res),
            Operation::Derivative => kernel::derivative(s, number, table, first, res),
            Operation::Product => kernel::product(s, table, first, second, res, work),
            Operation::Bracket => kernel::bracket(s, table, first, second, res, work),
            Operation::Substitute => kernel::substitute(s, table, first, second, res, work),
            Operation::Compose => kernel::compose(s, table, first, second, res, work),
            Operation::Invert => kernel::invert(s, table, first, res, work),
        }
    }
}
