ghost use Rattle.std.specs.Prelude.{◌≡◌, ◌<◌};
ghost use Rattle.std.specs.Int.{bit_at};
ghost use Rattle.qt_ring.specs.Places.{is_one};

/// The qubit's bit in the number of a basis state.
pub fn bit(index: usize, qubit: u32) -> bool
    requires { qubit < 64 }
    ensures { result ≡ is_one (bit_at index qubit) }
{
    index >> qubit & 1 == 1
}
