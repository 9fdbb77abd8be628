// Automata as bytes: the reader with its refusals, and an opened automaton, whose limits and edges are fetched.
#![tactic(auto)]

pub mod constraint;
pub mod fields;
pub mod opened;
pub mod refusals;
mod whole;
