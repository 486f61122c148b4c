ghost use Rattle.std.specs.Prelude.{◌≡◌, ℕ, ◌+◌, ◌^◌, ◌≤◌, List, [], IfOk, OnOk, OnErr};
ghost use Rattle.qt_root2.specs.Real.{plus_real};
ghost use Rattle.qt_run.specs.Distribution.{IsDistribution};
ghost use Rattle.qt_run.specs.Tally.{AddsAt, HoldsShares, held, numerators, real_number, whole_part, whole_part_held};
ghost use Rattle.qt_run.specs.Tree.{Point};

use qt_output::Output;
use qt_report::{Chance, Distribution, Register};
use qt_root2::mass::Mass;
use std::alloc::{AllocError, Global};
use std::collections::BTreeMap;
use std::marker::Model;

/// The masses of the leaves so far, by output value.
#[derive(Drop)]
pub struct Tally {
    masses: BTreeMap<Output, Mass>,
}

impl Model for Tally {
    ghost use Rattle.std.specs.Prelude.{◌^◌, ◌≤◌};
    ghost use Rattle.qt_run.specs.Tally.{Masses, numerators};

    ghost Value = { Masses };

    ghost view = { λ t. t.masses.entries };

    ghost invariant = { λ t. numerators t.masses.entries ≤ 2 ^ 126 };
}

impl Tally {
    /// No masses.
    pub fn new(alloc: Global) -> Tally
        ensures { result ≡ [] }
    {
        Tally {
            masses: BTreeMap::new(alloc),
        }
    }

    /// Adds the mass of a leaf at its output value. After an error the masses are as before.
    pub fn add(&mut self, output: Output, mass: Mass) -> Result<(), AllocError>
        requires { numerators self.old + whole_part mass ≤ 2 ^ 126 }
        ensures added { OnOk result (AddsAt self.old self.new output (real_number mass)) }
        ensures sum { OnOk result (numerators self.new ≡ numerators self.old + whole_part mass) }
        ensures err { OnErr result (self.new ≡ self.old) }
    {
        let sum = self.sum(&output, mass);
        self.masses.insert(output, sum)?;
        Ok(())
    }

    // what the output value holds, with one more mass
    fn sum(&self, output: &Output, mass: Mass) -> Mass
        requires { numerators self.now + whole_part mass ≤ 2 ^ 126 }
        ensures real { real_number result ≡ plus_real (held self.now output.now) (real_number mass) }
        ensures whole { whole_part result ≡ whole_part_held self.now output.now + whole_part mass }
    {
        match self.masses.get(output) {
            Some(before) => before.plus(mass),
            None => mass,
        }
    }

    /// The distribution of all leaves whose masses were added.
    pub fn into_distribution(
        self,
        alloc: Global,
        layout: Vec<Register>,
    ) -> Result<Distribution, AllocError>
        ensures layout { IfOk result (λ d. d.layout ≡ layout.items) }
        ensures chances { IfOk result (λ d. (leaves : List Point) → HoldsShares self leaves → IsDistribution leaves d.chances) }
    {
        let mut chances = Vec::new(alloc);
        let mut total = Mass::zero();
        for (output, mass) in self.masses {
            if !mass.is_zero() {
                let of = mass.reduced();
                chances.push(Chance { output, of })?;
                total = total.plus(mass);
            }
        }
        Ok(Distribution::new(layout, chances, total.reduced()))
    }
}
