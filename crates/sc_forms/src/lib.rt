//! What the texts of CQL2 and of geometries come to: each text has an answer, and each form of a filter means what the
//! rules of the language say.
#![tactic(auto)]

pub mod laws;
