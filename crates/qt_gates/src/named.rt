//! The names of the standard gates.

ghost use Rattle.std.specs.Prelude.{◌≡◌, ◌≤◌, length, map};
ghost use Rattle.qt_gates.specs.Named as spec;

/// A standard gate: the number of its row in the table, and how many parameters and qubits it has.
#[derive(Clone, Copy)]
pub struct StandardGate {
    pub number: u32,
    pub parameters: u32,
    pub qubits: u32,
}

/// The rows of the table in its order: a gate's name, and how many parameters and qubits it has.
pub const ROWS: [(&str, u32, u32); 32] = [
    ("id", 0, 1),
    ("p", 1, 1),
    ("phase", 1, 1),
    ("u1", 1, 1),
    ("z", 0, 1),
    ("s", 0, 1),
    ("t", 0, 1),
    ("sdg", 0, 1),
    ("tdg", 0, 1),
    ("x", 0, 1),
    ("y", 0, 1),
    ("h", 0, 1),
    ("sx", 0, 1),
    ("rx", 1, 1),
    ("ry", 1, 1),
    ("rz", 1, 1),
    ("u2", 2, 1),
    ("u3", 3, 1),
    ("cx", 0, 2),
    ("CX", 0, 2),
    ("cy", 0, 2),
    ("cz", 0, 2),
    ("cp", 1, 2),
    ("cphase", 1, 2),
    ("crx", 1, 2),
    ("cry", 1, 2),
    ("crz", 1, 2),
    ("ch", 0, 2),
    ("swap", 0, 2),
    ("ccx", 0, 3),
    ("cswap", 0, 3),
    ("cu", 4, 2),
];

/// The gate of a name in these rows, numbered from 0 on.
fn gate_in(mut rows: &[(&str, u32, u32)], name: &str) -> Option<StandardGate>
    requires { length rows.now ≤ 32 }
    ensures { result ≡ spec.gate_in 0 (map (λ row. (row.0.now, row.1, row.2)) rows.entry.now) name.now }
{
    let mut number = 0;
    'table: while let [(row_name, parameters, qubits), later @ ..] = rows {
        if name == *row_name {
            return Some(StandardGate {
                number,
                parameters: *parameters,
                qubits: *qubits,
            });
        }
        number += 1;
        rows = later;
    }
    None
}

/// The standard gate of that name, or nothing where no standard gate has it.
#[tactic(auto, unfolding(qt_gate_calls::specs::Standard::standard_gates))]
pub fn standard(name: &str) -> Option<StandardGate>
    ensures { result ≡ spec.standard_named name.now }
{
    gate_in(&ROWS, name)
}
