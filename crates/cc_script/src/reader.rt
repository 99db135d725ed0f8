//! Scripts read from their texts.

ghost use Rattle.std.specs.Prelude.{◌≡◌, ◌⊎◌, ◌≤◌, ◌^◌, length, None, Some, Err, MatchResult, IsUtf8};
ghost use Rattle.serde_json.specs.Data.{Data};
ghost use Rattle.serde_json.specs.Read.{read};
ghost use Rattle.serde_json.specs.View.{view};
ghost use Rattle.cc_meaning.specs.Order.{IsRisingByName, MethodsRise};
ghost use Rattle.cc_meaning_script.specs.Script.{classes_at, with_classes, script_of_value};
ghost use Rattle.cc_script.specs.Gives.{Gives};

use crate::classes::listed_classes;
use crate::resolve::classes_at;
use cc_meaning::fault::ScriptFault;
use cc_meaning::program::Program;
use cc_meaning::script::Script;
use cc_meaning_script::listed::ListedClasses;
use cc_program_names::method_names;
use serde_json::Value;
use std::alloc::Global;

fn value_of(alloc: Global, text: &[u8]) -> Result<Value, ScriptFault>
    ensures { MatchResult result (λ value. IsUtf8 text.now × (read text.now ≡ Some (view value)))
        (λ fault. (fault ≡ ScriptFault.Memory) ⊎ ((fault ≡ ScriptFault.NotJson) × (IsUtf8 text.now → read text.now ≡ None))) }
{
    match Value::from_slice(alloc, text) {
        Ok(value) => Ok(value),
        Err(fault) => {
            if fault.is_memory() {
                Err(ScriptFault::Memory)
            } else {
                Err(ScriptFault::NotJson)
            }
        }
    }
}

/// The script that listed classes are.
fn script_of(
    alloc: Global,
    program: &Program,
    listed: &ListedClasses,
) -> Result<Script, ScriptFault>
    requires methods { length program.now.methods ≤ 2 ^ 32 }
    requires rising { MethodsRise program.now }
    requires few { length program.now.classes ≤ 2 ^ 32 }
    requires classes { IsRisingByName program.now.classes }
    ensures { Gives (with_classes (classes_at program.now listed.now)) result }
{
    let names = method_names(alloc, program)?;
    match classes_at(alloc, program, names.as_slice(), listed.as_slice()) {
        Ok(classes) => Ok(Script { classes }),
        Err(fault) => Err(fault),
    }
}

/// The script that a value is for a program.
fn script_of_value(alloc: Global, program: &Program, value: &Value) -> Result<Script, ScriptFault>
    requires methods { length program.now.methods ≤ 2 ^ 32 }
    requires rising { MethodsRise program.now }
    requires few { length program.now.classes ≤ 2 ^ 32 }
    requires classes { IsRisingByName program.now.classes }
    ensures { Gives (script_of_value program.now (view value.now)) result }
{
    match listed_classes(alloc, value) {
        Ok(listed) => script_of(alloc, program, &listed),
        Err(fault) => Err(fault),
    }
}

/// Reads the script of a program. A text that is no JSON is refused first, then the first class that is out of shape, then the first member that the program
/// hasn't got as an outside or native method, or whose answer doesn't fit it, class by class and place by place. Only want of memory may come instead.
pub fn read_script(alloc: Global, text: &[u8], program: &Program) -> Result<Script, ScriptFault>
    requires methods { length program.now.methods ≤ 2 ^ 32 }
    requires rising { MethodsRise program.now }
    requires few { length program.now.classes ≤ 2 ^ 32 }
    requires classes { IsRisingByName program.now.classes }
    ensures value { IsUtf8 text.now → (value : Data) → read text.now ≡ Some value → Gives (script_of_value program.now value) result }
    ensures no_value { (IsUtf8 text.now → read text.now ≡ None) → Gives (Err ScriptFault.NotJson) result }
{
    let value = match value_of(alloc, text) {
        Ok(value) => value,
        Err(fault) => return Err(fault),
    };
    script_of_value(alloc, program, &value)
}
