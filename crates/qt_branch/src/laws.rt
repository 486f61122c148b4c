//! Laws of branches as keys, for those who build on them. The functions do nothing: what they promise is the law.
ghost use Rattle.qt_branch.specs.Laws.{EqualWhereThePartsAre, EqualBranchesHashAlike};

/// Branches are equal exactly where their places, their slots and their amplitudes are.
pub fn equality()
    ensures { EqualWhereThePartsAre }
{}

/// Equal branches tell a hasher the same.
pub fn hashes()
    ensures { EqualBranchesHashAlike }
{}
