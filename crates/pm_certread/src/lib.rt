//! Reading certificates: documents that list a closed tableau, line by line.
#![tactic(auto)]

mod application;
mod cert;
mod error;
mod fault;
mod header;
mod laws;
mod levels;
mod lines;
mod node_line;
mod nodes;
mod read;
mod root;
mod terms;
mod words;

pub use cert::Cert;
pub use error::{CertError, CertKind};
pub use laws::{certificates_are_over_problems, readings_are_determined};
pub use read::read_cert;
