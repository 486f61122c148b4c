//! Rows of weights, by name: numbers in a row carry no proof of what a weight must be.

ghost use Rattle.std.specs.Prelude.{◌≤◌, IfSome, unsigned_abs};
ghost use Rattle.qt_root2.specs.Root2.{IsGood};

use qt_root2::scale::{NumberFault, Scale};
use qt_root2::weight::Weight;
use qt_rows::answer::Answer;
use qt_rows::row::Row;

const LEAST: Weight = Weight { a: 1, b: 0 };

const LARGEST: Weight = Weight { a: 1 << 126, b: 0 };

// 2^24 · ε^(−80)
const FALLING: Weight = Weight {
    a: 35135385855123646655310003663422881792,
    b: -24844469597763833393559433575344898048,
};

// half of the largest, less its root part
const SLOPED: Weight = Weight {
    a: 1 << 125,
    b: -(1 << 124),
};

// ε^(−48), and ε^(−50)
const SMALL: Weight = Weight {
    a: 1180872205318713601,
    b: -835002744095575440,
};

const SMALLER: Weight = Weight {
    a: 6882627592338442563,
    b: -4866752642924153522,
};

fn weight_in(row: &mut Row<'_>) -> Weight {
    match row.word() {
        "one" => Weight::one(),
        "least" => LEAST,
        "largest" => LARGEST,
        "falling" => FALLING,
        "sloped" => SLOPED,
        "small" => SMALL,
        "smaller" => SMALLER,
        _ => {
            row.refuse();
            Weight::one()
        }
    }
}

fn scale_in(row: &mut Row<'_>) -> Scale
    ensures twos { unsigned_abs result.twos ≤ 1024 }
    ensures units { unsigned_abs result.units ≤ 512 }
    ensures primes { result.primes ≤ 1 }
{
    let (twos, units, primes) = (row.i32(), row.i32(), row.u8());
    if twos.unsigned_abs() <= 1024 && units.unsigned_abs() <= 512 && primes <= 1 {
        return Scale {
            twos,
            units,
            primes,
        };
    }
    row.refuse();
    Scale {
        twos: 0,
        units: 0,
        primes: 0,
    }
}

/// The norm `a + b√2`, if neither it nor its conjugate is below 0.
fn norm(a: i128, b: i128) -> Option<(i128, i128)>
    ensures { IfSome result (λ norm. IsGood norm.0 norm.1) }
{
    let (first, second) = (a.checked_mul(a)?, b.checked_mul(b)?);
    match 2i128.checked_mul(second) {
        Some(second) if 0 <= a && second <= first => Some((a, b)),
        _ => None,
    }
}

fn tell(weight: Result<Weight, NumberFault>, answer: &mut Answer) {
    match weight {
        Ok(Weight { a, b }) => write!(answer, "Weight({a}, {b})"),
        Err(NumberFault) => answer.push_str("Fault"),
    }
}

fn tell_mass(weight: Weight, row: &mut Row<'_>, answer: &mut Answer) {
    let Some(norm) = norm(row.i128(), row.i128()) else {
        return row.refuse();
    };
    match weight.mass(norm) {
        Ok(mass) => write!(answer, "Mass({}, {})", mass.a, mass.b),
        Err(NumberFault) => answer.push_str("Fault"),
    }
}

fn tell_sum(left: Weight, right: Weight, row: &mut Row<'_>, answer: &mut Answer) {
    match left.a.checked_add(right.a) {
        Some(first) if first <= 1i128 << 126 => tell(Ok(left.plus(right)), answer),
        _ => row.refuse(),
    }
}

/// `weight CALL NAME ..`.
pub fn answer_weight(row: &mut Row<'_>, answer: &mut Answer) {
    let call = row.word();
    let weight = weight_in(row);
    match call {
        "scaled" => tell(weight.scaled(scale_in(row)), answer),
        "mass" => tell_mass(weight, row, answer),
        "plus" => tell_sum(weight, weight_in(row), row, answer),
        _ => row.refuse(),
    }
}
