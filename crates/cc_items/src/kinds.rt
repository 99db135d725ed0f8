//! What static values of fields may be.

ghost use Rattle.std.specs.Prelude.{◌≡◌, MatchOption, Some, None};
ghost use Rattle.std.specs.Str.{bytes_eq};
ghost use Rattle.cc_meaning.specs.BuiltIn.{string_name};
ghost use Rattle.cc_meaning_dex.specs.Rows.{descriptor_of};
ghost use Rattle.cc_meaning_dex.specs.Values.{field_kind, kind_of};

use cc_meaning::file::Ids;
use cc_meaning_dex::ValueKind;

/// The descriptor of the class of strings, `Ljava/lang/String;`.
const STRING: [u16; 18] = [
    76, 106, 97, 118, 97, 47, 108, 97, 110, 103, 47, 83, 116, 114, 105, 110, 103, 59,
];

/// The descriptor of a row of types, where there is such a row.
fn descriptor(ids: &Ids, row: u32) -> Option<&[u16]>
    ensures { MatchOption result (descriptor_of ids.now row ≡ None) (λ units. descriptor_of ids.now row ≡ Some units.now) }
{
    let text = *ids.types.get(row as usize)?;
    Some(ids.texts.get(text as usize)?.as_slice())
}

/// Whether a descriptor is that of the class of strings.
#[tactic(auto, unfolding(cc_meaning::specs::BuiltIn::string_name))]
fn is_string(units: &[u16]) -> bool
    ensures { result ≡ bytes_eq units.now string_name }
{
    units[..] == STRING[..]
}

/// What a static value of a field of this type may be.
#[tactic(auto, unfolding(cc_meaning_dex::specs::Values::kind_of))]
fn kind_of(units: &[u16]) -> Option<ValueKind>
    ensures { result ≡ kind_of units.now }
{
    match units {
        [90, ..] => Some(ValueKind::Boolean),
        [66, ..] => Some(ValueKind::Byte),
        [83, ..] => Some(ValueKind::Short),
        [67, ..] => Some(ValueKind::Char),
        [73, ..] => Some(ValueKind::Int),
        [74, ..] => Some(ValueKind::Long),
        [76 | 91, ..] if is_string(units) => Some(ValueKind::Text),
        [76 | 91, ..] => Some(ValueKind::Reference),
        _ => None,
    }
}

/// What a static value of a field may be, by its row.
pub fn field_kind(ids: &Ids, row: u32) -> Option<ValueKind>
    ensures { result ≡ field_kind ids.now row }
{
    let field = ids.fields.get(row as usize)?;
    kind_of(descriptor(ids, field.kind)?)
}
