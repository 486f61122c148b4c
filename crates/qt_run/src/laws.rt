ghost use Rattle.qt_first.specs.Form.{IsWithinLimits};
ghost use Rattle.qt_run.specs.Distribution.{OneDistribution, TotalIsOne};

use qt_first::program::Program;

/// Whatever list of chances is the distribution of a program, its probabilities are together 1.
pub fn total_is_one(program: &Program)
    requires { IsWithinLimits program.now }
    ensures { TotalIsOne program.now }
{}

/// Two lists of chances that are both the distribution of the same leaves are equal.
pub fn one_distribution()
    ensures { OneDistribution }
{}
