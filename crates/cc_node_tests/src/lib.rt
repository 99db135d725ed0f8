//! Tests of the machine of plain files, of clone, pair and device, and of the one call.
#![tactic(auto)]

#[cfg(test)]
mod adds_one;
#[cfg(test)]
mod cli_sample;
#[cfg(test)]
mod clone_runs;
#[cfg(test)]
mod clone_sample;
#[cfg(test)]
mod device_sample;
#[cfg(test)]
mod happenings;
#[cfg(test)]
mod images;
#[cfg(test)]
mod offload;
#[cfg(test)]
mod pair_sample;
#[cfg(test)]
mod pair_whole;
#[cfg(test)]
mod run;
#[cfg(test)]
mod running;
#[cfg(test)]
mod stream;
#[cfg(test)]
mod travels;
