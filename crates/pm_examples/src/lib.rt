//! Tests on clause files of crates that don't stand on the reader of clause files.
#![tactic(auto)]

#[cfg(test)]
mod code;
#[cfg(test)]
mod gates;
#[cfg(test)]
mod machine;
