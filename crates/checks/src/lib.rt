// The checks that the public routines share, the sizes of a setting, and the words of work space.
#![tactic(auto)]

mod checks;
mod shared;
mod sizes;

pub use checks::table_check;
pub use shared::{constants, images, inputs, room};
pub use sizes::{prime, work_space, work_words};

// What a slice of the caller is for.
#[derive(Clone, Copy, PartialEq, Eq)]
pub enum Kind {
    Table,
    Series,
    Map,
    Work,
}

// A slice of the caller: what it is for, and its length.
pub type Slice = (Kind, usize);

// What the words of an argument are.
#[derive(Clone, Copy, PartialEq, Eq)]
pub enum Shape {
    Series,
    Map,
}

// An argument: what its words are, and the words.
pub type Argument<'a> = (Shape, &'a [u32]);
