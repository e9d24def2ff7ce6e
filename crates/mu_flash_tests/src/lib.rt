//! Inputs, outputs, links and flashes in memory, what stands on a flash, images, the notes of nodes and distributors, and how
//! both are made, as tests.
#![tactic(auto)]

#[cfg(test)]
mod cells_tests;
#[cfg(test)]
mod dist_tests;
#[cfg(test)]
mod distributor_kept_tests;
#[cfg(test)]
mod distributor_note_tests;
#[cfg(test)]
mod flash_tests;
#[cfg(test)]
mod gathered_tests;
#[cfg(test)]
mod image_tests;
#[cfg(test)]
mod link_tests;
#[cfg(test)]
mod note_tests;
#[cfg(test)]
mod stream_tests;
#[cfg(test)]
mod updsrv_tests;
