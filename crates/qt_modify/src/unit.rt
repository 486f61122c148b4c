//! The steps of phase arithmetic of a call.

use qt_instructions::angle::AngleStep;
use sqlite_items::Items;

/// Steps of phase arithmetic. The first of them writes the work cell with the number `first`, each other one the cell behind.
#[derive(Drop)]
pub struct Steps {
    pub first: u32,
    pub steps: Items<AngleStep>,
}
