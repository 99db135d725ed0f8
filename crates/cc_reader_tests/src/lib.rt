//! Tests of the readers of tables, classes, names and outlines.
#![tactic(auto)]

#[cfg(test)]
mod class_members;
#[cfg(test)]
mod class_reading;
#[cfg(test)]
mod classes_sample;
#[cfg(test)]
mod code;
#[cfg(test)]
mod draft;
#[cfg(test)]
mod member_names;
#[cfg(test)]
mod names;
#[cfg(test)]
mod names_sample;
#[cfg(test)]
mod outline_sample;
#[cfg(test)]
mod outlines;
#[cfg(test)]
mod static_values;
#[cfg(test)]
mod table_faults;
#[cfg(test)]
mod tables;
#[cfg(test)]
mod tables_sample;
#[cfg(test)]
mod tried;
#[cfg(test)]
mod tries;
#[cfg(test)]
mod type_names;
#[cfg(test)]
mod widths;
