// How large the numbers of a transform can get (document 02 §13): bounds on sums and products of f32, on a column, on a plan, on lines, energies and samples.
// It has no code: what is promised stands in promises, and is proved there from the laws in proofs/.

#![tactic(auto)]
