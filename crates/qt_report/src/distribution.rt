ghost use Rattle.std.specs.Prelude.{◌≡◌};

use crate::register::Register;
use qt_output::Output;
use qt_root2::mass::Reduced;
use std::marker::Model;

/// An output value and its probability.
#[derive(Debug, Drop)]
pub struct Chance {
    pub output: Output,
    pub of: Reduced,
}

/// The printed registers and the output values, each with its probability. Its total is their sum.
#[derive(Debug, Drop)]
pub struct Distribution {
    layout: Vec<Register>,
    chances: Vec<Chance>,
    total: Reduced,
}

impl Model for Distribution {
    ghost use Rattle.std.specs.Prelude.{◌≡◌};
    ghost use Rattle.qt_root2.specs.Masses.{real_of_reduced};
    ghost use Rattle.qt_report.specs.Outcomes.{Outcomes};
    ghost use Rattle.qt_report.specs.Report.{total_of};

    ghost Value = { Outcomes };

    ghost view = { λ d. record { layout = d.layout.items; chances = d.chances.items } };

    ghost invariant = { λ d. real_of_reduced d.total ≡ total_of d.chances.items };
}

impl Distribution {
    ghost use Rattle.std.specs.Prelude.{◌≡◌};
    ghost use Rattle.qt_root2.specs.Masses.{real_of_reduced};
    ghost use Rattle.qt_report.specs.Report.{total_of};

    /// Takes both lists over; `total` is the sum of the probabilities.
    pub fn new(layout: Vec<Register>, chances: Vec<Chance>, total: Reduced) -> Self
        requires { real_of_reduced total ≡ total_of chances.items }
        ensures { result ≡ record { layout = layout.items; chances = chances.items } }
    {
        Distribution {
            layout,
            chances,
            total,
        }
    }

    pub fn layout(&self) -> &[Register]
        ensures { result.now ≡ self.now.layout }
    {
        self.layout.as_slice()
    }

    pub fn items(&self) -> &[Chance]
        ensures { result.now ≡ self.now.chances }
    {
        self.chances.as_slice()
    }

    /// The sum of the probabilities.
    pub fn total(&self) -> Reduced
        ensures { real_of_reduced result ≡ total_of self.now.chances }
    {
        self.total
    }
}
