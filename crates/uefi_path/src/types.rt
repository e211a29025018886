// The two forms of a path and the cursor over its components, with what each always keeps.
ghost use Rattle.std.specs.Prelude.{◌≡◌, ◌+◌, ◌≤◌, true, length};
ghost use Rattle.std.specs.List.{list_all};
ghost use Rattle.uefi_types.specs.Units.{is_text};
ghost use Rattle.uefi_path.specs.Parents.{no_slash};

use arrayvec::ArrayVec;

// The most units that a path has.
pub const MAX_UNITS: usize = 256;

// A path: at most 256 units, each of which may stand in a text.
#[derive(Drop)]
pub struct Path {
    pub(super) units: ArrayVec<u16, MAX_UNITS>,
    // The vector keeps this too, and here whoever has a path can cite it.
    ghost short: { length units.items ≤ 256 },
    ghost text: { is_text units.items ≡ true },
}

// A path that is built up. It has the separator where it was given a `/`.
#[derive(Drop)]
pub struct PathBuf {
    pub(super) path: Path,
    ghost slashless: { list_all no_slash path.units.items ≡ true },
}

// Where the components of a path have been read to: the next one begins at `at`, and one past the end all are read.
// By a place, since a cursor over what is left took two thirds more time.
#[derive(Clone, Copy)]
pub struct Components<'a> {
    pub(super) units: &'a [u16],
    pub(super) at: usize,
    ghost within: { at ≤ length units.now + 1 },
    ghost short: { length units.now ≤ 256 },
    ghost text: { is_text units.now ≡ true },
}
