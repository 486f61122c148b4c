/// The product `c0 + c1 ω + c2 ω² + c3 ω³` of two numbers [`crate::omega::Omega`], with coefficients of twice the width.
#[derive(Clone, Copy, Debug, PartialEq, Eq)]
pub struct Wide {
    pub c0: i128,
    pub c1: i128,
    pub c2: i128,
    pub c3: i128,
}
