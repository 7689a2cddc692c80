// The working diagram as mathematics, and what each change of it keeps: the definitions are in specs/.
// Each function stands for the theorems that its contract states.
#![tactic(auto)]

ghost use Rattle.models.specs.Laws.{EditsKeepSound};

// A diagram of nothing is sound, and every edit of a sound diagram leaves a sound one; placing, removing, joining,
// scaling, fusing and attaching do so where the test that goes with each says that it can be done, and placing at
// a phase below a full turn.
pub fn edits_keep_sound()
    ensures { EditsKeepSound }
{}
