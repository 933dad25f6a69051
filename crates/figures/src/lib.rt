// The figures that whoever rebuilds the round must get.
#![tactic(auto)]

ghost use Rattle.figures.specs.Figures.{figures, Hold};

// Each figure of the list is what the definitions give. Its call does nothing.
pub fn figures_hold()
    ensures { Hold figures }
{}
