//! Laws of the ring, for those who build on it. The functions do nothing: what they promise is the law.
ghost use Rattle.qt_ring.specs.Division.{IsUnit};
ghost use Rattle.qt_ring.specs.Laws.{SumsCommute, SumsAssociate, NilIsNeutral, MinusIsOpposite, ProductsCommute, ProductsAssociate, OneIsNeutral, ProductsDistribute, TwoDoubles, ConjKeepsSums, ConjKeepsProducts, ConjKeepsOne, ConjUndoesItself, NormIsProduct, NormOfProduct, NormIsGood, OnlyNilHasNormZero, RootsAreUnits, EpsilonTimesItsInverse, UnitsKeepDivisors, TwoDividesByParity, RootTwoDividesByParity, OneMinusOmegaDividesByParity, HasNoZeroDivisors, QuotientsAreUnique, RootTwoDividesTwo, OneMinusOmegaDividesRootTwo, TwoInRootTwo, RootTwoInOneMinusOmega, UIsUnitary, PhaseIsUnitary};
ghost use Rattle.qt_ring.specs.Ring.{epsilon, epsilon_inverse};

/// Sums are those of a commutative group.
pub fn sums()
    ensures commutative { SumsCommute }
    ensures associative { SumsAssociate }
    ensures zero { NilIsNeutral }
    ensures opposite { MinusIsOpposite }
{}

/// Products are those of a commutative ring.
pub fn products()
    ensures commutative { ProductsCommute }
    ensures associative { ProductsAssociate }
    ensures one { OneIsNeutral }
    ensures distributive { ProductsDistribute }
    ensures two { TwoDoubles }
{}

/// The complex conjugate keeps sums and products.
pub fn conjugates()
    ensures sum { ConjKeepsSums }
    ensures product { ConjKeepsProducts }
    ensures one { ConjKeepsOne }
    ensures twice { ConjUndoesItself }
{}

/// `|x|² = A + B√2` is multiplicative, not below 0 with its conjugate, and 0 at 0 alone.
pub fn norms()
    ensures whole { NormIsProduct }
    ensures product { NormOfProduct }
    ensures good { NormIsGood }
    ensures zero { OnlyNilHasNormZero }
{}

/// The powers of `ω`, `ε` and its inverse are units, and a unit changes no divisibility.
pub fn units()
    ensures roots { RootsAreUnits }
    ensures epsilon { IsUnit epsilon }
    ensures epsilon_inverse { IsUnit epsilon_inverse }
    ensures inverses { EpsilonTimesItsInverse }
    ensures divisors { UnitsKeepDivisors }
{}

/// Which numbers 2, `√2` and `1 − ω` divide, by the parities of coefficients.
pub fn parities()
    ensures two { TwoDividesByParity }
    ensures root_two { RootTwoDividesByParity }
    ensures one_minus_omega { OneMinusOmegaDividesByParity }
{}

/// A product is 0 only where a factor is, so that a quotient is the only one.
pub fn quotients()
    ensures no_zero_divisors { HasNoZeroDivisors }
    ensures unique { QuotientsAreUnique }
{}

/// How 2, `√2` and `1 − ω` divide one another's multiples: `√2² = 2`, and `(1 − ω)²` is `√2` times a unit.
pub fn divisors()
    ensures root_two { RootTwoDividesTwo }
    ensures one_minus_omega { OneMinusOmegaDividesRootTwo }
    ensures of_root_two { TwoInRootTwo }
    ensures of_one_minus_omega { RootTwoInOneMinusOmega }
{}

/// `U` and `gphase` are unitary at all angles in eighths of a turn.
pub fn unitary()
    ensures u { UIsUnitary }
    ensures phase { PhaseIsUnitary }
{}
