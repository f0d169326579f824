// What a transform of each size reads: its plan, and its twiddles packed, those of a stage one beside the other.
// New: `KissFastFourierTransform::new` of lc3-codec 0.2.0 (src/common/kissfft.rs) computes the plan, and all twiddles in the order of the turn.

#![tactic(auto)]

mod plans; // plans.rt: the plans
mod tables; // tables.rt: the twiddles

pub use plans::plan;
pub use tables::packed;
