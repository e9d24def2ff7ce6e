//! The calls of a store that keeps a job, over a flash in memory: one job from its beginning to its end, booted again at each step, and a kept fault.
#![tactic(auto)]

#[cfg(test)]
mod job_tests;
