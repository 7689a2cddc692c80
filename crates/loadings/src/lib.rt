// Loading as mathematics: which working diagram a list of items makes, and why it has their amplitude.
#![tactic(auto)]

ghost use Rattle.loadings.specs.Laws.{LoadingKeeps};

// A loaded diagram has the amplitude of its items at every row.
pub fn loading_keeps_the_amplitude()
    ensures { LoadingKeeps }
{}
