//! The messages of a BLOB server over a flash in memory: transfers by push and by pull with each operation cut, and transfers that are taken up again.
#![tactic(auto)]

#[cfg(test)]
mod cut_tests;
#[cfg(test)]
mod made;
#[cfg(test)]
mod row_tests;
#[cfg(test)]
mod worn_tests;
