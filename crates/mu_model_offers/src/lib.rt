//! What a distributor offers over whole runs: under one BLOB ID one image, and to each receiver one index.
#![tactic(auto)]

pub mod laws;
