ghost use Rattle.std.specs.Prelude.{◌≡◌, fold};
ghost use Rattle.std.proofs.Common.{rules};
ghost use Rattle.std.specs.Cmp.{signed_Decides};
ghost use Rattle.std.specs.Cmp.Rules.{comparing};
ghost use Rattle.std.specs.Ordering.{int_eq};
ghost use Rattle.std.specs.Hash as fed;
ghost use Rattle.std.specs.Hash.{Alike, and-Alike, on_Alike, same_Alike, items_Alike};
ghost use lib.Pointwise.{pointwise};
ghost use Rattle.qt_ring.specs.declared.omega.Omega.{Omega};
ghost use Rattle.qt_branch.specs.Amplitudes.{same_amplitude, told_amplitude};

use qt_ring::omega::Omega;
use std::hash::{Hash, Hasher};
use std::marker::Model;

/// The amplitudes of the qubits, one for each basis state.
#[derive(Debug, Drop)]
pub struct Amplitudes {
    entries: Vec<Omega>,
}

impl Model for Amplitudes {
    ghost use Rattle.std.specs.Prelude.{List};
    ghost use Rattle.qt_ring.specs.declared.omega.Omega.{Omega};

    ghost Value = { List Omega };

    ghost view = { λ a. a.entries.items };
}

impl PartialEq for Amplitudes {
    ghost eq = { pointwise same_amplitude };

    ghost laws = { Prim.search (comparing, rules) depth 9 };

    fn eq(&self, other: &Amplitudes) -> bool {
        self.entries == other.entries
    }
}

impl Eq for Amplitudes {
    ghost laws = { Prim.search (comparing, rules) depth 9 };
}

impl Hash for Amplitudes {
    ghost hash_input = { fed.slice told_amplitude };

    ghost respects_eq = { let told : Alike int_eq fed.i64 = same_Alike fed.i64 signed_Decides in
        let first : Alike _ _ = on_Alike (λ (x : Omega). x.c0) told in
        let second : Alike _ _ = on_Alike (λ (x : Omega). x.c1) told in
        let third : Alike _ _ = on_Alike (λ (x : Omega). x.c2) told in
        let fourth : Alike _ _ = on_Alike (λ (x : Omega). x.c3) told in
        (items_Alike (and-Alike first (and-Alike second (and-Alike third fourth)))).fed };

    fn hash<H: Hasher>(&self, state: &mut H) {
        tell_amplitudes(self.entries.as_slice(), state);
    }
}

impl Amplitudes {
    /// Takes the list over.
    pub fn from_vec(entries: Vec<Omega>) -> Amplitudes
        ensures { result ≡ entries.items }
    {
        Amplitudes { entries }
    }

    pub fn as_slice(&self) -> &[Omega]
        ensures { result.now ≡ self.now }
    {
        self.entries.as_slice()
    }
}

fn tell_amplitude<H: Hasher>(amplitude: Omega, state: &mut H)
    ensures { state.new ≡ fold H.write state.old (told_amplitude amplitude) }
{
    state.write_i64(amplitude.c0);
    state.write_i64(amplitude.c1);
    state.write_i64(amplitude.c2);
    state.write_i64(amplitude.c3);
}

/// How many amplitudes there are, and then each.
fn tell_amplitudes<H: Hasher>(amplitudes: &[Omega], state: &mut H)
    ensures { state.new ≡ fold H.write state.old (fed.slice told_amplitude amplitudes.now) }
{
    state.write_usize(amplitudes.len());
    for index in 0..amplitudes.len() {
        tell_amplitude(amplitudes[index], state);
    }
}
