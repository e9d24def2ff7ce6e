//! What a boot prints of the state that a cut has left: the number of its record and how many blocks of a bank in filling are held.
#![tactic(auto)]

pub mod laws;
