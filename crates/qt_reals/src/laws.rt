//! Laws of the exact real numbers, for those who build on them. The functions do nothing: what they promise is the law.
ghost use Rattle.qt_reals.specs.Laws.{LeastFormIsUnique, LeastFormIsSame, ProductsAreInLeastForm, SumsAreInLeastForm, SumsCommute, SumsAssociate, ZeroIsNeutral};
ghost use Rattle.qt_reals.specs.Laws.{ProductsCommute, ProductsAssociate, ProductsDistribute, ZeroAbsorbs, OneIsNeutral};
ghost use Rattle.qt_reals.specs.Laws.{ScaledIsProduct, ScaledByNorm, MassIsProduct, NormOfProduct, MassOfFactored, MassIsOverQuarters, TotalsAdd};

/// There is one least form of a number, it stands for that number, and sums and products are in it.
pub fn least_form()
    ensures unique { LeastFormIsUnique }
    ensures same { LeastFormIsSame }
    ensures sums { SumsAreInLeastForm }
    ensures products { ProductsAreInLeastForm }
{}

/// Numbers in least form are a commutative semiring.
pub fn semiring()
    ensures sums_commute { SumsCommute }
    ensures sums_associate { SumsAssociate }
    ensures zero { ZeroIsNeutral }
    ensures products_commute { ProductsCommute }
    ensures products_associate { ProductsAssociate }
    ensures distributive { ProductsDistribute }
    ensures absorbs { ZeroAbsorbs }
    ensures one { OneIsNeutral }
{}

/// What `Weight::scaled` and `Weight::mass` answer are products.
pub fn weights()
    ensures scaled { ScaledIsProduct }
    ensures by_norm { ScaledByNorm }
    ensures mass { MassIsProduct }
{}

/// `|x·y|² = |x|²·|y|²`, for a number and for a state, and the mass of a state is that of its entries over `4^halvings`.
pub fn norms()
    ensures product { NormOfProduct }
    ensures factored { MassOfFactored }
    ensures over { MassIsOverQuarters }
    ensures sums { TotalsAdd }
{}
