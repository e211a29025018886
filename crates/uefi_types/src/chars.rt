// UCS-2 units: which may stand in a text.
ghost use Rattle.std.specs.Prelude.{◌≡◌, ◌+◌, ◌<◌, ◌≤◌, length, drop};
ghost use Rattle.std.specs.Option.{option_map};
ghost use Rattle.uefi_types.specs.Units.{text_unit, first_bad, FirstBad};

// Whether a unit may stand in a text: it is not NUL and not half of a surrogate pair.
pub fn is_text_unit(unit: u16) -> bool
    ensures { result ≡ text_unit unit }
{
    !matches!(unit, 0 | 0xD800..=0xDFFF)
}

// The place of the first unit from a place on that may not stand in a text. From the front it is the first of all.
fn bad_from(units: &[u16], first: usize) -> Option<usize>
    requires { first ≤ length units.now }
    ensures value { result ≡ option_map (λ at. first + at) (first_bad (drop first units.now)) }
    ensures front { first ≡ 0 → result ≡ first_bad units.now }
{
    let rest = &units[first..];
    match rest.iter().position(|unit| !is_text_unit(*unit)) {
        Some(at) => Some(first + at),
        None => None,
    }
}

// The place of the first unit that may not stand in a text.
pub fn first_bad_unit(units: &[u16]) -> Option<usize>
    ensures value { result ≡ first_bad units.now }
    ensures law { FirstBad units.now result }
{
    bad_from(units, 0)
}
