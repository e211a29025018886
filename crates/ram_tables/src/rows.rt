// A node's row, and what questions about the rows are answered with.

use super::names::NAME_UNITS;

// A node with its one entry: the directory that has the entry, and the name there, whose units are the first `len` of `name`.
// By an array and a length, since a row can be copied, and the kit's vectors in place can't.
#[derive(Clone, Copy)]
pub struct Row {
    pub parent: usize,
    pub name: [u16; NAME_UNITS],
    pub len: usize,
    // a flag, since no value comes with what a node is, and `contains` answers it of an attribute
    pub directory: bool,
}

// What a directory has at a position: itself, the directory above, or the entry of a node.
#[derive(Clone, Copy, PartialEq, Eq, Debug)]
pub enum Listed {
    Dot,
    DotDot,
    Child(usize),
}

// Where a path leads: nowhere further, or to the last component in a directory.
// An enum and no Option in an Option: that a path leads nowhere is the None of `lead`.
#[derive(Clone, Copy, PartialEq, Eq, Debug)]
pub enum Led<'a> {
    Own,
    Last(usize, &'a [u16]),
}

// The node of a name that was entered in a directory: it was there, or it was made.
#[derive(Clone, Copy, PartialEq, Eq, Debug)]
pub enum Entered {
    Found(usize),
    Made(usize),
}

// Why a name has no node after it was to be entered.
#[derive(Clone, Copy, PartialEq, Eq, Debug)]
pub enum EnterError {
    NotADirectory,
    BadName,
    Full,
}
