// Pairs, fractions and zones: document 01, "Pairs and zones".
#![tactic(auto)]

pub mod fraction;
pub mod pair;
pub mod reduction;
pub mod zone;
