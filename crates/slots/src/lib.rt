// The working table filled for squares by the runs of a word. The squares that end at a boundary inside
// a run with unit p start 2 p, 4 p, … before it; the best of these starts is that of 2 p earlier or the
// start 2 p before. It is kept in a slot, one for each residue of 2 p, so that a run costs a step a
// boundary.
#![tactic(auto)]

pub mod inner;
