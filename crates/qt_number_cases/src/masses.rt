//! Rows of masses, by name: numbers in a row carry no proof of what a mass must be.

use qt_root2::mass::Mass;
use qt_rows::answer::Answer;
use qt_rows::row::Row;

const LEAST: Mass = Mass { a: 1, b: 0 };

// (2 + √2) / 4
const LIKELY: Mass = Mass {
    a: 1 << 95,
    b: 1 << 94,
};

const TWO: Mass = Mass { a: 1 << 97, b: 0 };

fn mass_in(row: &mut Row<'_>) -> Mass {
    match row.word() {
        "zero" => Mass::zero(),
        "least" => LEAST,
        "likely" => LIKELY,
        "two" => TWO,
        _ => {
            row.refuse();
            Mass::zero()
        }
    }
}

/// Writes a mass in its least form, and whether it is 0.
fn tell(mass: Mass, answer: &mut Answer) {
    let (reduced, is_zero) = (mass.reduced(), mass.is_zero());
    write!(
        answer,
        "Answer {{ reduced: {reduced:?}, is_zero: {is_zero} }}"
    );
}

fn tell_sum(left: Mass, right: Mass, row: &mut Row<'_>, answer: &mut Answer) {
    match left.a.checked_add(right.a) {
        Some(first) if first <= 1i128 << 126 => tell(left.plus(right), answer),
        _ => row.refuse(),
    }
}

/// `mass reduced NAME` and `mass plus NAME NAME`.
pub fn answer_mass(row: &mut Row<'_>, answer: &mut Answer) {
    match row.word() {
        "reduced" => tell(mass_in(row), answer),
        "plus" => tell_sum(mass_in(row), mass_in(row), row, answer),
        _ => row.refuse(),
    }
}
