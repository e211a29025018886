// The tables of the volume in memory: its nodes with their entries, and its open handles.
#![tactic(auto)]

mod handles;
mod lookups;
mod names;
mod nodes;
mod rows;
mod table;
mod tables;
mod walks;

pub use names::{DOT, is_dots, is_name};
pub use rows::{EnterError, Entered, Led, Listed, Row};
pub use tables::{HandleTable, NodeTable, ROOT};
