//! What the bytes of a DEX file spell: numbers, texts, its header and tables, its classes; and the laws of those definitions.
#![tactic(auto)]

mod class_laws;
mod items;
mod table;
mod table_laws;
mod text_laws;

pub use class_laws::{classes_agree, faults_caused, handlers_rise, members_agree, one_classes};
pub use items::{Cursor, Handler, Members, StatedMethod, ValueKind};
pub use table::Table;
pub use table_laws::{
    descriptors_agree, first_faults, one_ids, pairs_agree, sound_files, texts_judged, types_listed,
    well_formed_files,
};
pub use text_laws::{
    front_faults, mutf8_agrees, mutf8_answers, one_text, one_uleb, sleb_agrees, text_agrees,
    text_faults, text_steps, uleb_agrees,
};
