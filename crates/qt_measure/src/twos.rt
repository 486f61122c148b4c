//! Powers of two in one amplitude.
ghost use Rattle.std.specs.Prelude.{◌≡◌, ◌+◌, ◌≤◌, ◌⊎◌};
ghost use Rattle.qt_ring.specs.Division.{Divides};
ghost use Rattle.qt_ring.specs.Ring.{times, two_to};
ghost use Rattle.qt_vector.specs.States.{IsSmall};

use qt_ring::omega::Omega;

/// How often the amplitude can be halved, at most so many times.
pub fn twos(amplitude: Omega, most: u32) -> u32
    requires { IsSmall amplitude }
    ensures few { result ≤ most }
    ensures whole { Divides (two_to result) amplitude }
    ensures greatest { (result ≡ most) ⊎ (¬ Divides (two_to (result + 1)) amplitude) }
{
    if amplitude.is_zero() {
        return most;
    }
    let mut rest = amplitude;
    for by in 0..most {
        match rest.halve() {
            Some(half) => rest = half,
            None => return by,
        }
    }
    most
}

/// The amplitude halved so many times.
pub fn halved(amplitude: Omega, by: u32) -> Omega
    requires small { IsSmall amplitude }
    requires whole { Divides (two_to by) amplitude }
    ensures value { times (two_to by) result ≡ amplitude }
    ensures small { IsSmall result }
{
    let mut rest = amplitude;
    for _step in 0..by {
        rest = rest.halve().unwrap();
    }
    rest
}
