// Theorems about the replay's contract.
ghost use Rattle.replay.specs.Theorems.{OneAnswer};

// At most one answer meets the contract of `replay`.
pub fn one_answer()
    ensures { OneAnswer }
{}
