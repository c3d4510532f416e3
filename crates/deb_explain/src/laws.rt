//! Laws of the explanations of a file. Each function does nothing; its contract is the law.

ghost use Rattle.deb_explain.specs.Laws.{EachHasOneExplanation, FirstIsExplains};

/// Each refusal of a file has exactly one explanation: the refusals that are explained are those of
/// the file, in their order.
pub fn each_refusal_has_one_explanation()
    ensures { EachHasOneExplanation }
{}

/// The first explanation of a file, if it has one, is the one that `explain` returns.
pub fn the_first_explanation_is_that_of_explain()
    ensures { FirstIsExplains }
{}
