//! The rows of clients and of distributors are exact: what each event makes of them, and when they stay as they are.
#![tactic(auto)]

pub mod laws;
