//! The two rows of twice the matrix of `U`, times two amplitudes.
ghost use Rattle.std.specs.Prelude.{◌≡◌, ◌≤◌, ◌*◌, ◌+ℤ◌, false, true};
ghost use Rattle.std.specs.Int.RustNames.{unsigned_abs};
ghost use Rattle.qt_ring.specs.declared.TheConstants.{LARGEST};
ghost use Rattle.qt_ring.specs.Ring.{plus};
ghost use Rattle.qt_vector.specs.States.{IsSmall};
ghost use Rattle.qt_embedding.specs.Entries.{row};
ghost use Rattle.qt_kernel.specs.Gates.{u_matrix, AreAngles, IsFourfold};

use crate::gate::Angles;
use qt_ring::omega::Omega;

impl Angles {
    /// The row of bit 0: (1 + ω^θ)·low − i·ω^λ·(1 − ω^θ)·high.
    pub fn low_row(self, low: Omega, high: Omega) -> Omega
        requires angles { AreAngles self }
        requires low { IsSmall low }
        requires high { IsSmall high }
        ensures value { result ≡ row (u_matrix self) false low high }
        ensures size { IsFourfold result }
    {
        let theta = self.theta;
        let lambda = self.lambda;
        sum_of_four(
            low.times_omega(0),
            low.times_omega(theta),
            high.times_omega(6 + lambda),
            high.times_omega(6 + (lambda + (4 + theta))),
        )
    }

    /// The row of bit 1: i·ω^φ·(1 − ω^θ)·low + ω^(φ+λ)·(1 + ω^θ)·high.
    pub fn high_row(self, low: Omega, high: Omega) -> Omega
        requires angles { AreAngles self }
        requires low { IsSmall low }
        requires high { IsSmall high }
        ensures value { result ≡ row (u_matrix self) true low high }
        ensures size { IsFourfold result }
    {
        let theta = self.theta;
        let phi = self.phi;
        let lambda = self.lambda;
        sum_of_four(
            low.times_omega(2 + phi),
            low.times_omega(2 + (phi + (4 + theta))),
            high.times_omega(phi + lambda),
            high.times_omega(phi + lambda + theta),
        )
    }
}

fn sum_of_four(first: Omega, second: Omega, third: Omega, fourth: Omega) -> Omega
    requires first { IsSmall first }
    requires second { IsSmall second }
    requires third { IsSmall third }
    requires fourth { IsSmall fourth }
    ensures value { result ≡ plus (plus first second) (plus third fourth) }
    ensures size { IsFourfold result }
{
    Omega {
        c0: total(first.c0, second.c0, third.c0, fourth.c0),
        c1: total(first.c1, second.c1, third.c1, fourth.c1),
        c2: total(first.c2, second.c2, third.c2, fourth.c2),
        c3: total(first.c3, second.c3, third.c3, fourth.c3),
    }
}

fn total(a: i64, b: i64, c: i64, d: i64) -> i64
    requires a_size { unsigned_abs a ≤ unsigned_abs LARGEST }
    requires b_size { unsigned_abs b ≤ unsigned_abs LARGEST }
    requires c_size { unsigned_abs c ≤ unsigned_abs LARGEST }
    requires d_size { unsigned_abs d ≤ unsigned_abs LARGEST }
    ensures value { result ≡ a +ℤ b +ℤ (c +ℤ d) }
    ensures size { unsigned_abs result ≤ 4 * unsigned_abs LARGEST }
{
    a + b + (c + d)
}
