//! Tests of the builder of files and of its parts.
#![tactic(auto)]

#[cfg(test)]
mod adding;
#[cfg(test)]
mod items_of_classes;
#[cfg(test)]
mod marks;
#[cfg(test)]
mod parts;
#[cfg(test)]
mod tables;
#[cfg(test)]
mod values;
#[cfg(test)]
mod whole;
