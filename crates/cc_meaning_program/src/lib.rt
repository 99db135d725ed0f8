//! What program a file's tables and classes give: names, the hierarchy of its classes, its code, resolution of members, each fault with its cause, and what is known on the way; definitions and laws.
#![tactic(auto)]

mod body_laws;
mod class_laws;
mod links;
mod name_laws;
mod outline;
mod owner;
mod owner_laws;
mod plan;
mod read_fault;
mod reference;
mod uses;

pub use body_laws::{
    insns_take_units, instructions_laid_out, no_body_lacks_memory, one_body_fault, one_break,
    one_reading, sound_bodies_have_none, sound_code, spelled_code_is_small, stand_to_end,
};
pub use class_laws::{one_class_fault, sound_classes_have_no_fault, sound_classes_leave};
pub use links::{Links, MethodLink};
pub use name_laws::{
    listed_types_spelled, one_class_names, one_texts, spelled_once, spells_by_parts,
};
pub use outline::{Outline, Outlines};
pub use owner::{FieldOwner, FieldOwners, MethodOwner, MethodOwners};
pub use owner_laws::{
    files_have_descriptors, one_field_owner, one_method_owner, one_program, one_program_of_file,
};
pub use plan::{FieldPlan, FieldPlans, FieldSource, MethodPlan, MethodPlans, MethodSource};
pub use read_fault::ReadFault;
pub use reference::Reference;
pub use uses::{MethodUse, MethodUses};
