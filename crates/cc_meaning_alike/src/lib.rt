//! Worlds that are the same up to the numbers of their objects, runs from such worlds, and the statements of the laws about them.
#![tactic(auto)]
