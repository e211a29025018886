// What paths do with their units: the separator, the denied characters, `/`.
ghost use Rattle.std.specs.Prelude.{◌≡◌, ◌+◌, ◌≤◌, not, [], ◌∷◌, length, take, drop, IfSome, if◌then◌else◌, Decides, MatchOption, nat_lt};
ghost use Rattle.std.specs.List.{list_all};
ghost use Rattle.uefi_path.specs.Components.{no_sep, cut, start, components_from};
ghost use Rattle.uefi_path.specs.Parents.{turn, turned};
ghost use Rattle.uefi_path.specs.Validity.{denied, first_denied};

// The separator of a path's components.
pub(super) const SEPARATOR: u16 = '\\' as u16;

const SLASH: u16 = '/' as u16;

// Whether no file name may have this unit.
pub fn is_denied(unit: u16) -> bool
    ensures { result ≡ denied unit }
{
    matches!(
        char::from_u32(u32::from(unit)),
        Some('\0' | '"' | '*' | '/' | ':' | '<' | '>' | '?' | '\\' | '|')
    )
}

// The character that a unit is shown as.
pub(super) fn shown(unit: u16) -> char {
    char::from_u32(u32::from(unit)).unwrap_or(char::REPLACEMENT_CHARACTER)
}

// The first denied unit of a component.
pub(super) fn first_denied(component: &[u16]) -> Option<u16>
    ensures { result ≡ first_denied component.now }
{
    component.iter().copied().find(|unit| is_denied(*unit))
}

// The unit that stands for this one in a path's own memory.
fn turn_slash(unit: u16) -> u16
    ensures { result ≡ turn unit }
{
    if unit == SLASH { SEPARATOR } else { unit }
}

// Where the first component of a text begins: behind one leading separator, and past the end where there is none.
pub(super) fn start_of_components(text: &[u16]) -> usize
    ensures { result ≡ start text.now }
{
    match text {
        [] => 1,
        [SEPARATOR] => 2,
        [SEPARATOR, ..] => 1,
        _ => 0,
    }
}

// Whether a text has a separator.
pub(super) fn has_separator(text: &[u16]) -> bool
    ensures { result ≡ not (list_all no_sep text.now) }
{
    text.contains(&SEPARATOR)
}

// How many units stand before the first separator. By a loop, as the cursor is by a place: both are on the way of every component.
fn before_separator(text: &[u16]) -> usize
    ensures within { result ≤ length text.now }
    ensures first { cut text.now ≡ take result text.now ∷ (if nat_lt result (length text.now) then cut (drop (result + 1) text.now) else []) }
{
    let mut i = 0;
    while i < text.len() && text[i] != SEPARATOR {
        i += 1;
    }
    i
}

// Whether two components are the same, unit by unit.
pub fn same_units(a: &[u16], b: &[u16]) -> bool
    ensures { Decides result (a.now ≡ b.now) }
{
    a == b
}

// The component that begins at a unit, and where the next one does.
pub(super) fn component_at(text: &[u16], from: usize) -> Option<(&[u16], usize)>
    ensures end { IfSome result (λ x. x.1 ≤ length text.now + 1) }
    ensures parts { MatchOption result (components_from from text.now ≡ []) (λ x. components_from from text.now ≡ x.0.now ∷ components_from x.1 text.now) }
{
    if from > text.len() {
        return None;
    }
    let end = from + before_separator(&text[from..]);
    Some((&text[from..end], end + 1))
}

// Turns each `/` into the separator.
pub(super) fn turn_slashes(units: &mut [u16])
    ensures { units.new ≡ turned units.old }
{
    for unit in units.iter_mut() {
        *unit = turn_slash(*unit);
    }
}
