//! All classes of a file.

ghost use Rattle.std.specs.Prelude.{◌≡◌, ◌≢◌, ◌<◌, ◌^◌, length, List, Option, None, Err, IfOk, IfErr};
ghost use Rattle.cc_meaning.specs.declared.file.RawClass.{RawClass};
ghost use Rattle.cc_meaning_dex.specs.Ids.{SpellsIds};
ghost use Rattle.cc_meaning_dex.specs.Causes.{IsFirstCause};
ghost use Rattle.cc_meaning_dex.specs.Classes.{or_fault, code_fault, methods_with_code, class_of, classes_from, SpellsClasses, classes_of};
ghost use Rattle.cc_dexcode.specs.Finding.{Finds, Answers, Judges};

use crate::code::has_sound_code;
use crate::flaw::Flaw;
use crate::members::read_members;
use crate::methods::read_method;
use crate::values::read_values;
use cc_list::List;
use cc_meaning::fault::DexFault;
use cc_meaning::file::{ClassRow, Ids, RawClass, RawClasses, RawMethods};
use cc_meaning_dex::{StatedMethod, classes_agree, faults_caused};
use std::alloc::Global;

/// What was read of a part, or this fault where it is malformed.
fn or_fault<T>(read: Result<T, Flaw>, fault: DexFault) -> Result<T, DexFault>
    ensures { (found : Option T) → Finds found read → Answers (or_fault found fault) result }
{
    match read {
        Ok(part) => Ok(part),
        Err(Flaw::Malformed) => Err(fault),
        Err(Flaw::Memory) => Err(DexFault::Memory),
    }
}

/// Judges whether each method has the code that it is to have, up to the first that hasn't.
fn check_code(file: &[u8], ids: &Ids, methods: &[StatedMethod]) -> Result<(), DexFault>
    ensures { Judges (code_fault file.now ids.now methods.now) result }
{
    for method in methods {
        if !has_sound_code(file, ids, *method) {
            return Err(DexFault::BadCode { method: method.row });
        }
    }
    Ok(())
}

/// Reads the methods with their code, up to the first whose tries are malformed.
fn read_methods(
    alloc: Global,
    file: &[u8],
    ids: &Ids,
    methods: &[StatedMethod],
) -> Result<RawMethods, DexFault>
    requires { code_fault file.now ids.now methods.now ≡ None }
    ensures { Answers (methods_with_code file.now ids.now methods.now) result }
{
    let mut read = RawMethods::new(alloc);
    for stated in methods {
        let fault = DexFault::BadTry { method: stated.row };
        let method = or_fault(read_method(alloc, file, ids, *stated), fault)?;
        read.push(method)?;
    }
    Ok(read)
}

/// Reads a class, by its number among the class definitions.
#[tactic(auto, unfolding(cc_meaning_dex::specs::Classes::class_of))]
fn read_class(
    alloc: Global,
    file: &[u8],
    ids: &Ids,
    number: u32,
    stated: &ClassRow,
) -> Result<RawClass, DexFault>
    ensures { Answers (class_of file.now ids.now number stated.now) result }
{
    let malformed = DexFault::BadClassData { class: number };
    let members = or_fault(read_members(alloc, file, ids, stated), malformed)?;
    check_code(file, ids, members.methods.as_slice())?;
    let methods = read_methods(alloc, file, ids, members.methods.as_slice())?;
    let values = read_values(
        alloc,
        file,
        ids,
        members.fields.as_slice(),
        stated.values_at,
    );
    let values = or_fault(values, DexFault::BadValue { class: number })?;
    Ok(RawClass {
        fields: members.fields,
        methods,
        values,
    })
}

/// Reads the classes of these class definitions, of which there are fewer than 2 ^ 32.
fn read_each(
    alloc: Global,
    file: &[u8],
    ids: &Ids,
    definitions: &[ClassRow],
) -> Result<RawClasses, DexFault>
    requires { length definitions.now < 2 ^ 32 }
    ensures { Answers (classes_from file.now ids.now 0 definitions.now) result }
{
    let mut classes = RawClasses::new(alloc);
    for (number, stated) in definitions.iter().enumerate() {
        let class = read_class(alloc, file, ids, number as u32, stated)?;
        classes.push(class)?;
    }
    Ok(classes)
}

/// The classes of a DEX file, by the tables that it spells.
///
/// # Errors
///
/// The first fault of the first class in the file's order that has one, in this order. `BadClassData`: its class data leaves the file, a number
/// of it is malformed, or a row is out of its table or of another class. `BadCode`, for its first method that has it: the code item leaves the
/// file but for its handler list, its arguments aren't the method's or exceed its registers, it stands where the method is native or abstract,
/// or it doesn't where the method is neither. `BadTry`, for its first method that has it: a try leaves the code, the handler list leaves the
/// file, is malformed or names a row that is no type of a value, or a try's handler begins at the start of none. `BadValue`: its static values
/// are malformed, too many or of another kind than their fields. At any time `Memory`: there is no memory.
///
/// Source: Dalvik Executable format, sections class_data_item, code_item and encoded_array_item.
pub fn read_classes(alloc: Global, file: &[u8], ids: &Ids) -> Result<RawClasses, DexFault>
    requires { SpellsIds file.now ids.now }
    ensures spelled { IfOk result (λ classes. SpellsClasses file.now ids.now classes) }
    ensures fault { IfErr result (λ fault. fault ≢ DexFault.Memory → classes_of file.now ids.now ≡ Err fault) }
    ensures caused { IfErr result (λ fault. fault ≢ DexFault.Memory → IsFirstCause file.now ids.now fault) }
    ensures refused { IfErr result (λ fault. fault ≢ DexFault.Memory → (classes : List RawClass) → ¬ SpellsClasses file.now ids.now classes) }
{
    classes_agree();
    faults_caused();
    read_each(alloc, file, ids, ids.classes.as_slice())
}
