// The judgement of a strike: grids, range, spacing, and the ground or the refusal.
#![tactic(auto)]

pub mod amounts;
pub mod bounds;
pub mod grids;
pub mod judgement;
pub mod spacing;
pub mod terms;
