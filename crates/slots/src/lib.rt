// Slots of the store: a zone, and where it came from, as numbers, both ways, and the containment test on them.
#![tactic(auto)]

pub mod containment;
pub mod slot;
