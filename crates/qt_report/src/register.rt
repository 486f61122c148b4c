ghost use Rattle.std.specs.Prelude.{◌≡◌};

use std::marker::Model;

/// A bit register that is printed: its name and its number of bits.
#[derive(Debug, Drop)]
pub struct Register {
    name: String,
    width: u32,
}

impl Model for Register {
    ghost use Rattle.std.specs.String.{string_bytes};
    ghost use Rattle.qt_report.specs.Outcomes.{BitRegister};

    ghost Value = { BitRegister };

    ghost view = { λ r. record { name = string_bytes r.name; width = r.width } };
}

impl Register {
    ghost use Rattle.std.specs.String.{string_bytes};

    /// Takes the name over.
    pub fn new(name: String, width: u32) -> Self
        ensures { result ≡ record { name = string_bytes name; width = width } }
    {
        Register { name, width }
    }

    pub fn name(&self) -> &str
        ensures { result.now ≡ self.now.name }
    {
        self.name.as_str()
    }

    /// The number of bits.
    pub fn width(&self) -> u32
        ensures { result ≡ self.now.width }
    {
        self.width
    }
}
