//! Rows of numbers of the ring.

ghost use Rattle.std.specs.Prelude.{◌≤◌, ◌^◌, unsigned_abs};
ghost use Rattle.qt_ring.specs.Ring.{Within};

use qt_ring::LARGEST;
use qt_ring::omega::Omega;
use qt_rows::answer::Answer;
use qt_rows::row::Row;

/// A coefficient of a size that the calls take.
fn coefficient_in(row: &mut Row<'_>) -> i64
    ensures { unsigned_abs result ≤ 2 ^ 54 }
{
    let number = row.i64();
    if number.unsigned_abs() <= LARGEST as u64 {
        return number;
    }
    row.refuse();
    0
}

fn omega_in(row: &mut Row<'_>) -> Omega
    ensures { Within (2 ^ 54) result }
{
    let (c0, c1) = (coefficient_in(row), coefficient_in(row));
    let (c2, c3) = (coefficient_in(row), coefficient_in(row));
    Omega { c0, c1, c2, c3 }
}

fn tell_norm((a, b): (i128, i128), answer: &mut Answer) {
    write!(answer, "Norm({a}, {b})");
}

/// The answer of a call on one number.
fn answer_one(call: &str, number: Omega, row: &mut Row<'_>, answer: &mut Answer)
    requires { Within (2 ^ 54) number }
{
    match call {
        "zero" => answer.push_variant("Zero", number.is_zero()),
        "conj" => answer.push_variant("Number", number.conj()),
        "norm" => tell_norm(number.norm_parts(), answer),
        "halve" => answer.push_variant("Perhaps", number.halve()),
        "over_root2" => answer.push_variant("Perhaps", number.over_root2()),
        "over_one_minus_omega" => answer.push_variant("Perhaps", number.over_one_minus_omega()),
        "times_epsilon" => answer.push_variant("Number", number.times_epsilon()),
        "times_epsilon_inverse" => answer.push_variant("Number", number.times_epsilon_inverse()),
        _ => row.refuse(),
    }
}

/// `omega CALL C0 C1 C2 C3 ..`.
pub fn answer_omega(row: &mut Row<'_>, answer: &mut Answer) {
    let call = row.word();
    let number = omega_in(row);
    match call {
        "times_omega" => answer.push_variant("Number", number.times_omega(row.u8())),
        "add" => answer.push_variant("Number", number.add(omega_in(row))),
        "sub" => answer.push_variant("Number", number.sub(omega_in(row))),
        "mul" => answer.push_variant("Wide", number.mul(omega_in(row))),
        _ => answer_one(call, number, row, answer),
    }
}
