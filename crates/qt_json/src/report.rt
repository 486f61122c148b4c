//! A report as data.

use qt_root2::mass::Reduced;
use qt_tree::label::Label;
use sqlite_items::Items;

/// An output: its name, and its value as it is printed.
#[derive(Drop)]
pub struct NamedText {
    pub name: Label,
    pub text: Label,
}

/// One output value: the outputs in their order, and its probability.
#[derive(Drop)]
pub struct ReportLine {
    pub values: Items<NamedText>,
    pub of: Reduced,
}

/// The lines in their order, the sum of the probabilities, and the number of states.
#[derive(Drop)]
pub struct Report {
    pub lines: Items<ReportLine>,
    pub states: u64,
    pub total: Reduced,
}
