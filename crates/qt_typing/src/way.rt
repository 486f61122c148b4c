//! How a conversion is made.

/// How a conversion is made. An angle becomes one of another width only by a cast that is written. OpenQASM 3.0, "Types and Casting".
#[derive(Clone, Copy)]
pub enum Way {
    /// By a cast.
    Written,
    /// Where a value of a type is wanted, without a cast.
    Unwritten,
}
