// Names: which there can be.
ghost use Rattle.std.specs.Prelude.{◌≡◌, ◌≤◌, not, ◌&&◌, length, take};
ghost use Rattle.std.specs.List.{list_all};
ghost use Rattle.uefi_types.specs.Units.{text_unit};
ghost use Rattle.uefi_path.specs.Validity.{denied};
ghost use Rattle.volume.specs.Calls.{nameable};
ghost use Rattle.volume.specs.Tree.{is_dots};

use uefi_path::is_denied;
use uefi_types::is_text_unit;

// The most units of a name.
pub(super) const NAME_UNITS: usize = 64;

pub const DOT: u16 = '.' as u16;

// Whether a name is "." or "..", which stand for directories and are no names.
pub fn is_dots(name: &[u16]) -> bool
    ensures { result ≡ is_dots name.now }
{
    matches!(name, [DOT] | [DOT, DOT])
}

// Whether a name may have all the units.
fn are_allowed(units: &[u16]) -> bool
    ensures { result ≡ list_all (λ u. not (denied u) && text_unit u) units.now }
{
    units
        .iter()
        .all(|unit| !is_denied(*unit) && is_text_unit(*unit))
}

// Whether there can be such a name.
pub fn is_name(name: &[u16]) -> bool
    ensures { result ≡ nameable 64 name.now }
{
    let len = name.len();
    if len == 0 || len > NAME_UNITS {
        return false;
    }
    are_allowed(name) && !is_dots(name)
}

// A name that fits, in front of a row's units.
pub(super) fn padded(name: &[u16]) -> [u16; NAME_UNITS]
    requires { length name.now ≤ 64 }
    ensures { take (length name.now) result ≡ name.now }
{
    let mut units = [0; NAME_UNITS];
    units[..name.len()].copy_from_slice(name);
    units
}
