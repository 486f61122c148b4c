/// Stands for `2^twos · ε^(2·units) · (2 − √2)^primes`, where `ε = 1 + √2`.
#[derive(Clone, Copy, Debug, PartialEq, Eq)]
pub struct Scale {
    pub twos: i32,
    pub units: i32,
    pub primes: u8,
}

/// The exact result is not whole over `2^96`, or too large.
#[derive(Clone, Copy, Debug, PartialEq, Eq)]
pub struct NumberFault;
