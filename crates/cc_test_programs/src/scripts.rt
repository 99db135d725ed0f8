//! Scripts, which answer the native methods of listings.

/// For `ask_twice`.
pub const ASK_TWICE_SCRIPT: &str =
    r#"{"classes":[{"answers":[["next()I",1],["next()I",2],["next()I",3],["next()I",4]],"name":"LC;","unpinned":["next()I"]}]}"#;

/// For `measure_square`.
pub const MEASURE_SCRIPT: &str =
    r#"{"classes":[{"answers":[["scan(I)I",3]],"name":"LDet;","unpinned":["scan(I)I"]}]}"#;
