// What is told of a node.
ghost use Rattle.std.specs.Prelude.{◌≡◌, ◌≤◌, true};
ghost use Rattle.uefi_types.specs.Units.{is_text};

use uefi_types::FileAttribute;

// How many bytes a node has, its attribute, and the name by which it goes.
#[derive(Clone, Copy)]
pub(super) struct About<'a> {
    pub(super) size: usize,
    pub(super) attribute: FileAttribute,
    pub(super) name: &'a [u16],
    ghost small: { size ≤ 65536 },
    ghost text: { is_text name.now ≡ true },
}
