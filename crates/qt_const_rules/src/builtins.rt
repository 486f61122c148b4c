ghost use Rattle.std.specs.Prelude.{◌≡◌};
ghost use Rattle.qt_const_rules.specs.Builtins.{builtin_of};

/// The functions of the language on values.
#[derive(Clone, Copy)]
pub enum Builtin {
    /// `popcount(x)`
    Popcount,
    /// `rotl(x, places)`
    Rotl,
    /// `rotr(x, places)`
    Rotr,
}

/// The function of that name. None where the language has none.
pub fn builtin_of(name: &str) -> Option<Builtin>
    ensures { result ≡ builtin_of name.now }
{
    if name == "popcount" {
        Some(Builtin::Popcount)
    } else if name == "rotl" {
        Some(Builtin::Rotl)
    } else if name == "rotr" {
        Some(Builtin::Rotr)
    } else {
        None
    }
}
