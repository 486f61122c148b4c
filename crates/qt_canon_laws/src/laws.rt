//! Laws of the canonical form, for those who build on it. The functions do nothing: what they promise is the law.
ghost use Rattle.qt_ring.specs.Ring.{the_omega, one_minus_omega, epsilon, two_to};
ghost use Rattle.qt_canon_laws.specs.Laws.{FormExists, FormIsOne, ListIsProduct, ScaleIsNorm, SameFormTimes};

/// A list has a canonical form exactly where it isn't all 0, and then one: it is the list over the product of all that is taken out, of
/// which the scale is the squared size.
pub fn canonical_form()
    ensures exists { FormExists }
    ensures one { FormIsOne }
    ensures product { ListIsProduct }
    ensures scale { ScaleIsNorm }
{}

/// Lists that differ by the factor `ω`, `1 − ω`, `1 + √2` or 2 have one canonical form.
pub fn multiples()
    ensures by_omega { SameFormTimes the_omega }
    ensures by_one_minus_omega { SameFormTimes one_minus_omega }
    ensures by_epsilon { SameFormTimes epsilon }
    ensures by_two { SameFormTimes (two_to 1) }
{}
