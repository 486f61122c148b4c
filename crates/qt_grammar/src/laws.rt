//! What holds of the grammar and of reading it. Each contract is a law, which the parsers stand on; no function does anything.

ghost use Rattle.qt_grammar.specs.Theorems as theorem;

/// A list of tokens has one tree at most, whatever the limits.
pub fn one_program()
    ensures { theorem.OneProgram }
{}

/// For each list of tokens and all limits one answer of a parser is right: the only program, or the stopper behind the longest
/// list that opens one, or the first token that is too deep.
pub fn one_parse()
    ensures some { theorem.SomeParse }
    ensures one { theorem.OneParse }
{}

/// For each place of a list of tokens and all limits one answer to reading an expression there is right.
pub fn one_answer()
    ensures some { theorem.SomeAnswer }
    ensures one { theorem.OneAnswer }
{}

/// A list of tokens that opens a program opens it at each place on the way.
pub fn opens_on_the_way()
    ensures { theorem.OpensOnTheWay }
{}

/// Within larger limits more is spelled.
pub fn larger_limits_spell_more()
    ensures { theorem.LargerLimitsSpellMore }
{}

/// The first token that is too deep stands before the stopper, where there is one.
pub fn too_deep_before_stopper()
    ensures { theorem.TooDeepBeforeStopper }
{}

/// The right answer is the program exactly where one is spelled within the limits; it is the first token too deep exactly where
/// some list opens a program, but not within the limits; and else it is the stopper.
pub fn parse_is_exact()
    ensures spelled { theorem.SpelledIsParsed }
    ensures too_deep { theorem.TooDeepIsTold }
    ensures stopper { theorem.StopperIsTold }
{}

/// The limit on levels is one on depth: what is spelled or opened within so many levels is what is spelled or opened whatever the
/// levels, with no token in more parentheses, brackets, braces, bodies, operands of unary operators and right sides of `**`. Each
/// token stands at one depth.
pub fn levels_are_depth()
    ensures expression { theorem.LevelsOfExpressionAreDepth }
    ensures program { theorem.LevelsOfProgramAreDepth }
    ensures each_token { theorem.EachTokenStands }
{}

/// The strengths of operators say how tokens group, and not whether they spell or open an expression: within any limits these are
/// factors with binary operators between, and whatever the levels unary operators, primaries and binary operators in turn.
pub fn strengths_only_group()
    ensures factors { theorem.StrengthsOnlyGroup }
    ensures parts { theorem.PartsStandInTurn }
{}
