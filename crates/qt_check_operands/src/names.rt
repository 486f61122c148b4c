//! What a name without a value is refused for.

pub use qt_check_rules::names::unfit;
