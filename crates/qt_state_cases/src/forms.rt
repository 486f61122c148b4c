//! Rows of canonical forms.

ghost use Rattle.std.specs.Prelude.{◌≡◌};
ghost use Rattle.std.specs.List.{list_all};
ghost use Rattle.qt_ring.specs.Ring.{is_nil};

use crate::amplitudes::{SmallList, write_amplitudes};
use qt_canon::canon::canon;
use qt_ring::omega::Omega;
use qt_root2::scale::Scale;
use qt_rows::answer::Answer;
use qt_rows::row::Row;
use std::alloc::Global;

/// Whether all amplitudes are 0: such a list has no canonical form.
fn are_all_zero(amplitudes: &[Omega]) -> bool
    ensures { result ≡ list_all is_nil amplitudes.now }
{
    amplitudes.iter().all(|amplitude| amplitude.is_zero())
}

fn write_scale(scale: Scale, answer: &mut Answer) {
    let Scale {
        twos,
        units,
        primes,
    } = scale;
    write!(answer, "twos {twos}, units {units}, primes {primes}: ");
}

/// `canon LIST`.
pub fn answer_canon(alloc: Global, row: &mut Row<'_>, answer: &mut Answer) {
    let SmallList { mut entries } = SmallList::read(alloc, row.rest, row, answer);
    if are_all_zero(entries.as_slice()) {
        return row.refuse();
    }
    match canon(entries.as_mut_slice()) {
        Ok(scale) => write_scale(scale, answer),
        Err(_) => answer.push_str("fault, "),
    }
    write_amplitudes(entries.as_slice(), answer);
}
