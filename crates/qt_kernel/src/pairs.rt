//! The amplitudes after a gate, by pairs of indexes that differ in the bit of the target.
ghost use Rattle.std.specs.Prelude.{◌≡◌, ◌+◌, ◌^◌, ◌<◌, length, EachIndex, slice_index_or};
ghost use Rattle.qt_ring.specs.Ring.{nil, times, two_to};
ghost use Rattle.qt_ring.specs.Division.{Divides};
ghost use Rattle.qt_vector.specs.States.{IsSmall};
ghost use Rattle.qt_kernel.specs.Gates.{AreAngles, IsFourfold, low_after, high_after, low_at, high_at, entry_after, Suits, AllDivide, WritesPair};

use crate::gate::ControlledU;
use crate::halving::halved;
use qt_ring::omega::Omega;

impl ControlledU {
    /// Twice the new amplitude of bit 0, from those of a pair.
    fn low_result(self, hold: bool, low: Omega, high: Omega) -> Omega
        requires angles { AreAngles self.angles }
        requires low { IsSmall low }
        requires high { IsSmall high }
        ensures value { result ≡ low_after self hold low high }
        ensures size { IsFourfold result }
    {
        if hold {
            self.angles.low_row(low, high)
        } else {
            twice(low)
        }
    }

    /// Twice the new amplitude of bit 1, from those of a pair.
    fn high_result(self, hold: bool, low: Omega, high: Omega) -> Omega
        requires angles { AreAngles self.angles }
        requires low { IsSmall low }
        requires high { IsSmall high }
        ensures value { result ≡ high_after self hold low high }
        ensures size { IsFourfold result }
    {
        if hold {
            self.angles.high_row(low, high)
        } else {
            twice(high)
        }
    }

    /// Twice the new amplitude at an index.
    pub fn result_at(self, entries: &[Omega], qubits: u32, index: usize) -> Omega
        requires suits { Suits self qubits entries.now }
        requires index_in { index < 2 ^ qubits }
        ensures value { result ≡ entry_after self entries.now index }
        ensures size { IsFourfold result }
    {
        let bit = 1usize << self.target;
        let hold = self.controls.hold(index);
        if index & bit == 0 {
            self.low_result(hold, entries[index], entries[index | bit])
        } else {
            self.high_result(hold, entries[index - bit], entries[index])
        }
    }

    /// Replaces all amplitudes by the new ones, over `2^by`.
    pub fn write(self, entries: &mut [Omega], qubits: u32, by: u32)
        requires suits { Suits self qubits entries.old }
        requires whole { AllDivide self by entries.old }
        ensures { EachIndex entries.new (λ i. times (two_to by) (slice_index_or entries.new i nil) ≡ entry_after self entries.old i) }
    {
        let bit = 1usize << self.target;
        for index in 0..entries.len() {
            if index & bit == 0 {
                self.write_pair(entries, index, index | bit, by);
            }
        }
    }

    fn write_pair(self, entries: &mut [Omega], low: usize, high: usize, by: u32)
        requires low_in { low < length entries.old }
        requires high_in { high < length entries.old }
        requires angles { AreAngles self.angles }
        requires low_size { IsSmall (slice_index_or entries.old low nil) }
        requires high_size { IsSmall (slice_index_or entries.old high nil) }
        requires low_whole { Divides (two_to by) (low_at self entries.old low high) }
        requires high_whole { Divides (two_to by) (high_at self entries.old low high) }
        ensures { WritesPair self by low high entries.old entries.new }
    {
        let hold = self.controls.hold(low);
        let first = entries[low];
        let second = entries[high];
        entries[low] = halved(self.low_result(hold, first, second), by);
        entries[high] = halved(self.high_result(hold, first, second), by);
    }
}

fn twice(x: Omega) -> Omega
    requires { IsSmall x }
    ensures value { result ≡ times (two_to 1) x }
    ensures size { IsFourfold result }
{
    x.add(x)
}
