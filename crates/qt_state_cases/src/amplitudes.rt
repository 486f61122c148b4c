//! Lists of amplitudes in rows, with the conditions that the calls ask of them.

ghost use Rattle.std.specs.Prelude.{◌≡◌, ◌^◌, ◌≤◌, unsigned_abs, length};
ghost use Rattle.qt_ring.specs.declared.TheConstants.{QUBITS, LARGEST};
ghost use Rattle.qt_vector.specs.States.{IsSmall, AreSmall};

use qt_ring::omega::Omega;
use qt_ring::{LARGEST, QUBITS};
use qt_rows::answer::Answer;
use qt_rows::row::Row;
use std::alloc::Global;

/// Amplitudes with no coefficient above `LARGEST` in size.
#[derive(Drop)]
pub struct SmallList {
    pub entries: Vec<Omega>,
    ghost small: { AreSmall entries.items },
}

/// The amplitudes of all basis states of some qubits.
#[derive(Drop)]
pub struct Amplitudes {
    pub qubits: u32,
    pub entries: Vec<Omega>,
    ghost few: { qubits ≤ QUBITS },
    ghost all: { length entries.items ≡ 2 ^ qubits },
    ghost small: { AreSmall entries.items },
}

/// A coefficient of a size that the calls take, or 0 where the row is refused.
fn coefficient_in(row: &mut Row<'_>) -> i64
    ensures { unsigned_abs result ≤ unsigned_abs LARGEST }
{
    let number = row.i64();
    if number.unsigned_abs() <= LARGEST as u64 {
        return number;
    }
    row.refuse();
    0
}

fn amplitude_in(row: &mut Row<'_>) -> Omega
    ensures { IsSmall result }
{
    let (c0, c1) = (coefficient_in(row), coefficient_in(row));
    let (c2, c3) = (coefficient_in(row), coefficient_in(row));
    Omega { c0, c1, c2, c3 }
}

impl SmallList {
    /// The amplitudes that a text writes. Where one is none or too large the row is refused.
    pub fn read(alloc: Global, written: &str, row: &mut Row<'_>, answer: &mut Answer) -> SmallList {
        let mut list = SmallList {
            entries: Vec::new(alloc),
        };
        for piece in written.split(',') {
            let mut coefficients = Row::new(piece);
            list.push(amplitude_in(&mut coefficients), answer);
            row.refused |= coefficients.refused;
        }
        list
    }

    fn push(&mut self, amplitude: Omega, answer: &mut Answer)
        requires { IsSmall amplitude }
    {
        answer.require(self.entries.push(amplitude));
    }

    /// The same as the amplitudes of so many qubits, if they are as many as these have.
    fn on(self, qubits: u32) -> Option<Amplitudes> {
        let SmallList { entries } = self;
        if qubits > QUBITS || entries.len() != 1usize << qubits {
            return None;
        }
        Some(Amplitudes { qubits, entries })
    }
}

impl Amplitudes {
    /// `QUBITS LIST`. Where these aren't the amplitudes of so many qubits, or one is too large, the row is refused.
    pub fn read(
        alloc: Global,
        written: &str,
        row: &mut Row<'_>,
        answer: &mut Answer,
    ) -> Option<Amplitudes> {
        let mut sized = Row::new(written);
        let qubits = sized.u32();
        row.refused |= sized.refused;
        let amplitudes = SmallList::read(alloc, sized.rest, row, answer).on(qubits);
        row.refused |= amplitudes.is_none();
        amplitudes
    }
}

/// Writes amplitudes as a row has them.
pub fn write_amplitudes(amplitudes: &[Omega], answer: &mut Answer) {
    let mut comma = "";
    for amplitude in amplitudes {
        let Omega { c0, c1, c2, c3 } = *amplitude;
        write!(answer, "{comma}{c0} {c1} {c2} {c3}");
        comma = ", ";
    }
}
