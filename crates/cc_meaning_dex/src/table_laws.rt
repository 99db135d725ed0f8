ghost use Rattle.cc_meaning_dex.specs.RowForms.{WellFormedFiles, TypesListed};
ghost use Rattle.cc_meaning_dex.specs.TableLaws.{FirstFaults, SoundFiles, TextsJudged, PairsAgree, DescriptorsAgree, OneIds};

use crate::text_laws::{one_text, text_agrees};

/// The fault of so many places is that of the first that has one, and there is none just where no place has one.
#[tactic(auto, using(crate::proofs::FaultLaws::first_faults))]
pub fn first_faults()
    ensures { FirstFaults }
{}

/// A file has no fault just where its header is one, its tables lie in it, and each row by itself has no fault.
#[tactic(auto, using(crate::proofs::SoundLaws::sound_files))]
pub fn sound_files()
    ensures { SoundFiles }
{}

/// The units by which rows are judged are the ones that are spelled.
pub fn texts_judged()
    ensures { TextsJudged }
{
    text_agrees();
}

/// The test of pairs passes just where no unit begins or ends a pair without its other half.
#[tactic(auto, using(crate::proofs::DescriptorLaws::pairs_agree))]
pub fn pairs_agree()
    ensures { PairsAgree }
{}

/// The test of descriptors passes just where the units are one.
#[tactic(auto, using(crate::proofs::DescriptorLaws::descriptors_agree))]
pub fn descriptors_agree()
    ensures { DescriptorsAgree }
{}

/// A file spells its tables in one way at most.
#[tactic(auto, using(crate::proofs::IdLaws::one_ids))]
pub fn one_ids()
    ensures { OneIds }
{
    one_text();
}

/// The types that are listed at an offset are those that are spelled there.
pub fn types_listed()
    ensures { TypesListed }
{}

/// A file has no fault just where it is well formed: its header is one, its tables lie in it, and all that a row names is there and of its sort.
pub fn well_formed_files()
    ensures { WellFormedFiles }
{
    text_agrees();
    texts_judged();
    pairs_agree();
    descriptors_agree();
    types_listed();
    sound_files();
}
