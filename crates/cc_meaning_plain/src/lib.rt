//! Plain files: what the bytes of a file of one printing class spell, and the program that it is.
#![tactic(auto)]

ghost use Rattle.cc_meaning_plain.specs.Laws.{TypeOnce, DataOnce, NameOnce, InsnOnce, InsnsOnce, CodeOnce, MainIsNoFunction, MethodsOnce, MethodsAgree, OrderOnce, PlainOnce, PlainReports, PlainReturns, NumbersMethods, OnlyFileHasCode, FunctionRuns};
ghost use Rattle.cc_meaning_run.specs.Eval.{Hook};
ghost use Rattle.cc_meaning_plain.specs.Worked.{TakesSix, TakesSixWords, ComesToSix, IsOneInvocation, TakesEight, FunctionComesToEight, AreTwoInvocations};

mod plain;
mod table;

use cc_meaning_dex::{one_text, one_uleb};
pub use plain::{
    Held, Last, Member, Plain, PlainCode, PlainFunction, PlainFunctions, PlainInsn, PlainInsns,
};
pub use table::Table;

/// The meaning of a run, at a worked example: 3 and 4 are added, and the sum is printed.
#[tactic(auto, using(crate::proofs::Worked::takes_six, crate::proofs::Worked::takes_six_words, crate::proofs::Worked::comes_to_six, crate::proofs::Worked::is_one_invocation))]
pub fn worked_example()
    ensures instructions { TakesSix }
    ensures words { TakesSixWords }
    ensures report { ComesToSix }
    ensures invocations { IsOneInvocation }
{}

/// The same of a function: it adds 1 to 5, and the sum is printed.
#[tactic(auto, using(crate::proofs::Worked::takes_eight, crate::proofs::Worked::function_comes_to_eight, crate::proofs::Worked::are_two_invocations))]
pub fn worked_function()
    ensures instructions { TakesEight }
    ensures report { FunctionComesToEight }
    ensures invocations { AreTwoInvocations }
{}

/// Each method of a plain file stands in its program at its number.
pub fn law_numbers_methods()
    ensures { (plain : Plain) → NumbersMethods plain }
{}

/// No other method of its program has code.
#[tactic(auto, using(crate::proofs::Others::only_file_has_code))]
pub fn law_only_file_has_code()
    ensures { (plain : Plain) → OnlyFileHasCode plain }
{}

/// A function of a plain file gives its value and takes its instructions, or stops where they are too few, whatever accompanies the run.
pub fn law_function_runs<T>()
    ensures { (hook : Hook T) → FunctionRuns hook }
{}

/// The run of a plain file within any limits has just the report that its instructions come to.
pub fn law_plain_reports()
    ensures { PlainReports }
{}

/// The run of a plain file always returns within the limits for which none are named, and prints what its instructions print.
pub fn law_plain_returns()
    ensures { PlainReturns }
{
    law_plain_reports();
}

/// A row of methods names one function of a class at most.
pub fn law_name_once()
    ensures { NameOnce }
{
    one_text();
}

/// At a place stands one instruction at most.
pub fn law_insn_once()
    ensures { InsnOnce }
{
    one_text();
}

/// In so many units stands one list of instructions at most.
pub fn law_insns_once()
    ensures { InsnsOnce }
{
    law_insn_once();
}

/// At a place stands one code item at most of `main`, and one of a function.
pub fn law_code_once()
    ensures { CodeOnce }
{
    law_insns_once();
}

/// A row of types has one descriptor at most.
pub fn law_type_once()
    ensures { TypeOnce }
{
    one_text();
}

/// At a place stands the data of a class in one way at most.
pub fn law_data_once()
    ensures { DataOnce }
{
    one_uleb();
}

/// A row of methods isn't both a `main` and a function.
pub fn law_main_is_no_function()
    ensures { MainIsNoFunction }
{
    law_type_once();
}

/// Methods are one `main` and one list of functions at most.
pub fn law_methods_once()
    ensures { MethodsOnce }
{
    law_name_once();
    law_code_once();
    law_main_is_no_function();
}

/// The methods of a plain file, told one by one, are its methods.
pub fn law_methods_agree()
    ensures { MethodsAgree }
{}

/// The same functions stand in the order of their names in one way at most.
pub fn law_order_once()
    ensures { OrderOnce }
{}

/// A file is plain in one way at most.
pub fn law_plain_once()
    ensures { PlainOnce }
{
    law_type_once();
    law_data_once();
    law_code_once();
    law_methods_once();
    law_methods_agree();
    law_order_once();
}
