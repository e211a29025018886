// What the file protocol's code shares: characters, numbers as bytes, alignments and modes, and how a refusal is numbered.
#![tactic(auto)]

mod align;
mod bytes;
mod chars;
mod modes;
mod refusal;

pub use align::Align;
pub use bytes::{part, read_field, read_le, write_le};
pub use chars::{first_bad_unit, is_text_unit};
pub use modes::{FileAttribute, FileMode, NoMode};
pub use refusal::Numbered;
