//! Pairs of UTF-16, and the descriptors of types.

ghost use Rattle.std.specs.Prelude.{◌≡◌, ◌≤◌, drop, length};
ghost use Rattle.std.specs.List.{list_all};
ghost use Rattle.cc_meaning_dex.specs.Descriptors.{is_high, is_low, is_paired, is_name_unit, is_class_descriptor, is_primitive, dims_of, is_base, is_descriptor, names_class, names_reference, names_value};

/// The most dimensions that an array has.
const MOST_DIMS: usize = 255;

/// `[`, which begins an array's descriptor.
const ARRAY: u16 = 91;

/// `L`, which begins a class's descriptor.
const CLASS: u16 = 76;

/// `;`, which ends a class's descriptor.
const CLASS_END: u16 = 59;

/// `V`, the descriptor of no value.
const VOID: u16 = 86;

/// Whether a unit is the first half of a pair.
fn is_high(unit: u16) -> bool
    ensures { result ≡ is_high unit }
{
    unit >= 0xd800 && unit <= 0xdbff
}

/// Whether a unit is the second half of a pair.
fn is_low(unit: u16) -> bool
    ensures { result ≡ is_low unit }
{
    unit >= 0xdc00 && unit <= 0xdfff
}

/// Whether no unit begins or ends a pair without its other half.
pub fn is_paired(units: &[u16]) -> bool
    ensures { result ≡ is_paired units.now }
{
    let mut begun = false;
    for unit in units {
        let ends = is_low(*unit);
        if begun != ends {
            return false;
        }
        begun = is_high(*unit);
    }
    !begun
}

/// Whether a unit may stand in a class's name: no `;`, `[`, `(`, `)` or `:`.
fn is_name_unit(unit: u16) -> bool
    ensures { result ≡ is_name_unit unit }
{
    !matches!(unit, CLASS_END | ARRAY | 40 | 41 | 58)
}

/// Whether each unit may stand in a class's name.
fn has_name_units(units: &[u16]) -> bool
    ensures { result ≡ list_all is_name_unit units.now }
{
    units.iter().all(|unit| is_name_unit(*unit))
}

/// Whether these units are the descriptor of a class: `L`, a name, and `;`.
#[tactic(auto, using(crate::proofs::Units::descriptor_by_name), unfolding(cc_meaning_dex::specs::Descriptors::is_class_descriptor))]
fn is_class_descriptor(units: &[u16]) -> bool
    ensures { result ≡ is_class_descriptor units.now }
{
    if units.len() < 3 {
        return false;
    }
    let last = units.len() - 1;
    if units[0] != CLASS || units[last] != CLASS_END {
        return false;
    }
    let name = &units[1..last];
    has_name_units(name) && is_paired(name)
}

/// Whether a unit is a letter that stands for a type: Z, B, S, C, I, J, F or D.
fn is_primitive(unit: u16) -> bool
    ensures { result ≡ is_primitive unit }
{
    matches!(unit, 90 | 66 | 83 | 67 | 73 | 74 | 70 | 68)
}

/// How many `[` stand in front.
fn dims_of(units: &[u16]) -> usize
    ensures exact { result ≡ dims_of units.now }
    ensures within { result ≤ length units.now }
{
    for (place, unit) in units.iter().enumerate() {
        if *unit != ARRAY {
            return place;
        }
    }
    units.len()
}

/// Whether an array of so many dimensions may be of this type, or a type without dimensions may be this one.
fn is_base(dims: usize, base: &[u16]) -> bool
    ensures { result ≡ is_base dims base.now }
{
    match base {
        [] => false,
        [unit] => is_primitive(*unit) || (dims == 0 && *unit == VOID),
        _ => is_class_descriptor(base),
    }
}

/// Whether these units are the descriptor of a type.
#[tactic(auto, unfolding(cc_meaning_dex::specs::Descriptors::is_descriptor))]
pub fn is_descriptor(units: &[u16]) -> bool
    ensures { result ≡ is_descriptor units.now }
{
    let dims = dims_of(units);
    let (_, base) = units.split_at(dims);
    dims <= MOST_DIMS && is_base(dims, base)
}

/// Whether a descriptor is a class's.
pub fn names_class(units: &[u16]) -> bool
    ensures { result ≡ names_class units.now }
{
    matches!(units, [CLASS, ..])
}

/// Whether a descriptor is a class's or an array's.
pub fn names_reference(units: &[u16]) -> bool
    ensures { result ≡ names_reference units.now }
{
    matches!(units, [CLASS | ARRAY, ..])
}

/// Whether a descriptor isn't V.
pub fn names_value(units: &[u16]) -> bool
    ensures { result ≡ names_value units.now }
{
    !matches!(units, [VOID, ..])
}
