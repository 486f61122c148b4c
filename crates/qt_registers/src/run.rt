ghost use Rattle.std.specs.Prelude.{◌≡◌, ◌+◌, ◌-◌, ◌*◌, ◌<◌, ◌≤◌, ◌↔◌, ◌^◌, ◌∷◌, [], IsTrue, IfSome, slice_get, Some};
ghost use Rattle.qt_registers.specs.Origins.{bound_of, qubit_of};

use crate::fixed::FixedQubit;

/// Where the qubits of a run are counted.
#[derive(Clone, Copy, Debug, PartialEq, Eq)]
pub enum Origin {
    /// Among the qubits of the program.
    Program,
    /// Among the places of a subroutine's parameter.
    Parameter { parameter: u32 },
}

impl Origin {
    /// Whether two origins are the same.
    fn is(self, other: Origin) -> bool
        ensures { IsTrue result ↔ (self ≡ other) }
    {
        self == other
    }
}

/// The qubits with the numbers `first`, `first + step`, .. of one origin, so many.
#[derive(Clone, Copy, Debug)]
pub struct Run {
    pub origin: Origin,
    pub first: u64,
    pub step: u64,
    pub count: u64,
    ghost moves: { 0 < step },
    ghost some: { 0 < count },
    ghost within: { first + (count - 1) * step < bound_of origin },
}

/// Where a qubit is counted, and its number there.
fn counted(qubit: FixedQubit) -> (Origin, u64)
    ensures value { qubit_of result.0 result.1 ≡ qubit }
    ensures within { result.1 < 2 ^ 63 → result.1 < bound_of result.0 }
{
    match qubit {
        FixedQubit::Number { qubit } => (Origin::Program, qubit),
        FixedQubit::OfParameter { parameter, place } => {
            (Origin::Parameter { parameter }, u64::from(place))
        }
    }
}

/// The qubit with that number.
fn qubit_of(origin: Origin, number: u64) -> FixedQubit
    requires { number < bound_of origin }
    ensures { result ≡ qubit_of origin number }
{
    match origin {
        Origin::Program => FixedQubit::Number { qubit: number },
        Origin::Parameter { parameter } => FixedQubit::OfParameter {
            parameter,
            place: number as u32,
        },
    }
}

impl Run {
    ghost use Rattle.qt_registers.specs.Registers.{stepped, Holds, Overlap};
    ghost use Rattle.qt_registers.specs.Runs.{run_qubits, HasNumber, Meet};

    /// The number of the qubit at a place.
    #[tactic(auto, using(crate::proofs::Numbers::number_within))]
    fn number(self, place: u64) -> u64
        requires { place < self.count }
        ensures value { result ≡ self.first + place * self.step }
        ensures within { result < bound_of self.origin }
    {
        self.first + place * self.step
    }

    /// The qubit at a place.
    #[tactic(auto, using(crate::proofs::Runs::placed))]
    pub fn qubit(self, place: u64) -> FixedQubit
        requires { place < self.count }
        ensures { slice_get (run_qubits self) place ≡ Some result }
    {
        qubit_of(self.origin, self.number(place))
    }

    /// How many of the places `start`, `start + step`, .. are in the run, of so many.
    pub fn reached(self, start: u64, step: u64, count: u64) -> u64
        requires { 0 < step }
        ensures few { result ≤ count }
        ensures inside { 0 < result → start + (result - 1) * step < self.count }
        ensures outside { result < count → self.count ≤ start + result * step }
    {
        if self.count <= start {
            return 0;
        }
        let steps = (self.count - 1 - start) / step;
        count.min(steps + 1)
    }

    /// The qubits at the places `start`, `start + step`, .., so many.
    pub fn stepped(self, start: u64, step: u64, count: u64) -> Run
        requires moves { 0 < step }
        requires some { 0 < count }
        requires within { start + (count - 1) * step < self.count }
        ensures { run_qubits result ≡ stepped (run_qubits self) start step count }
    {
        Run {
            origin: self.origin,
            first: self.number(start),
            step: self.step.saturating_mul(step),
            count,
        }
    }

    /// Whether a qubit of the run has the number.
    fn has_number(self, number: u64) -> bool
        ensures { IsTrue result ↔ HasNumber self number }
    {
        if number < self.first {
            return false;
        }
        let way = number - self.first;
        way % self.step == 0 && way / self.step < self.count
    }

    /// The run of one qubit. None of one whose number is 2^63 or more.
    #[tactic(auto, using(crate::proofs::Runs::of_one_qubit))]
    pub fn single(qubit: FixedQubit) -> Option<Run>
        ensures { IfSome result (λ run. run_qubits run ≡ qubit ∷ []) }
    {
        let (origin, first) = counted(qubit);
        if first >= 1 << 63 {
            return None;
        }
        Some(Run {
            origin,
            first,
            step: 1,
            count: 1,
        })
    }

    /// Whether a qubit stands in the run: its number there is reckoned, and no qubit is walked over.
    pub fn holds(self, qubit: FixedQubit) -> bool
        ensures { IsTrue result ↔ Holds (run_qubits self) qubit }
    {
        let (origin, number) = counted(qubit);
        if !self.origin.is(origin) {
            return false;
        }
        self.has_number(number)
    }

    /// How many numbers of the run, if it went on, are below a bound.
    fn count_below(self, bound: u64) -> u64
        ensures before { 0 < result → self.first + (result - 1) * self.step < bound }
        ensures behind { bound ≤ self.first + result * self.step }
    {
        if bound <= self.first {
            return 0;
        }
        (bound - self.first - 1) / self.step + 1
    }

    /// Whether some number is in both runs. The rests of the other run's numbers by this one's step come again after so many numbers as the
    /// step says, so no more of them are tried.
    fn meets(self, other: Run) -> bool
        ensures { IsTrue result ↔ Meet self other }
    {
        let first = other.count_below(self.first);
        let end = other.count.min(first.saturating_add(self.step));
        let mut place = first;
        while place < end {
            if self.has_number(other.number(place)) {
                return true;
            }
            place += 1;
        }
        false
    }

    /// Whether some qubit is in both runs. That of the smaller step is asked for the numbers of the other, which are fewer.
    pub fn overlaps(self, other: Run) -> bool
        ensures { IsTrue result ↔ Overlap (run_qubits self) (run_qubits other) }
    {
        if !self.origin.is(other.origin) {
            return false;
        }
        if self.step <= other.step {
            self.meets(other)
        } else {
            other.meets(self)
        }
    }
}
