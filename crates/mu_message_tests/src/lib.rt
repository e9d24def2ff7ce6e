//! Fields, reports, messages of the three models, the lines that show them and datagrams, read, written and refused, as tests.
#![tactic(auto)]

#[cfg(test)]
mod access_tests;
#[cfg(test)]
mod blobmsg_tests;
#[cfg(test)]
mod codec_tests;
#[cfg(test)]
mod distmsg_tests;
#[cfg(test)]
mod report_tests;
#[cfg(test)]
mod shown_tests;
#[cfg(test)]
mod updmsg_tests;
