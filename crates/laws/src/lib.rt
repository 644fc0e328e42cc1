// Laws of Boolean tests, of numbers that are 1 or 2, and of numbers stored in a table, which every
// crate above may cite. There is no code here.
#![tactic(auto)]
