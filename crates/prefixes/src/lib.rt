// Common prefixes: how far what stands at each place of a part, or of its mirror, agrees with what
// stands at one place of it.
#![tactic(auto)]

pub mod inner;
