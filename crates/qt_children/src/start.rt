//! Where a run of a branch begins.

use qt_branch::branch::Branch;
use qt_root2::weight::Weight;

/// A branch with the weight that it has and the fuel that is left.
#[derive(Debug, Drop)]
pub struct Start {
    pub branch: Branch,
    pub weight: Weight,
    pub fuel: u32,
}
