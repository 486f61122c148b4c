/// A qubit that is known before the program runs.
#[derive(Clone, Copy, Debug, PartialEq, Eq)]
pub enum FixedQubit {
    /// A qubit of the program, by its number.
    Number { qubit: u64 },
    /// A place of the register that a subroutine's parameter stands for.
    OfParameter { parameter: u32, place: u32 },
}
