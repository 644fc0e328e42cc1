// Bytes as 16-bit symbols: the finder of runs works over these.
#![tactic(auto)]

pub mod inner;
