//! Writing certificates: documents that list a closed tableau, line by line.
#![tactic(auto)]

mod document;
mod head;
mod laws;
mod lines;
mod list;
mod nodes;

pub use document::write_cert;
pub use laws::{certificates_read_back, documents_are_determined, proofs_are_certifiable};

#[cfg(test)]
mod tests;
