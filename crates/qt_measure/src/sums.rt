ghost use Rattle.std.specs.Prelude.{◌≡◌, ◌^◌, ◌≤◌, length};
ghost use Rattle.qt_ring.specs.declared.TheConstants.{QUBITS};
ghost use Rattle.qt_ring.specs.State.{total_a, total_b};
ghost use Rattle.qt_vector.specs.States.{AreSmall};

use qt_ring::omega::Omega;

/// The sum of |entry|², as `(A, B)` for `A + B√2`.
pub fn norm(entries: &[Omega]) -> (i128, i128)
    requires few { length entries.now ≤ 2 ^ QUBITS }
    requires small { AreSmall entries.now }
    ensures first { result.0 ≡ total_a entries.now }
    ensures second { result.1 ≡ total_b entries.now }
{
    let mut first = 0;
    let mut second = 0;
    for entry in entries {
        let parts = entry.norm_parts();
        first += parts.0;
        second += parts.1;
    }
    (first, second)
}
