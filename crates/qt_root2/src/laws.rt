//! Laws of the numbers `a + b√2`, for those who build on them. The functions do nothing: what they promise is the law.
ghost use Rattle.qt_root2.specs.Laws.{SumsAreGood, ProductsAreGood, GoodIsBounded, ProductsCommute, ProductsAssociate, OneIsNeutral, ScaledIsOne};

/// Numbers that are not below 0, and whose conjugates `a − b√2` are not, have such sums and products, and `|b| ≤ a`.
pub fn good()
    ensures sums { SumsAreGood }
    ensures products { ProductsAreGood }
    ensures bounded { GoodIsBounded }
{}

/// Products are those of a commutative ring.
pub fn products()
    ensures commutative { ProductsCommute }
    ensures associative { ProductsAssociate }
    ensures one { OneIsNeutral }
{}

/// A number has one scaled number at most, so that what `Weight::scaled` promises is one answer.
pub fn one_scaled()
    ensures { ScaledIsOne }
{}
