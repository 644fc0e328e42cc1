// Bytes, numbers and lines written into lent bytes.
#![tactic(auto)]

pub mod inner;
