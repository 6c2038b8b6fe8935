// Theorems about the judge's contract: each function stands for one.
ghost use Rattle.judge.specs.Table.{Table};
ghost use Rattle.judge.specs.Theorems.{OneAnswer, ZeroIsSound};

// At most one answer meets the contract of `judge`.
pub fn one_answer()
    ensures { OneAnswer }
{}

// The number of a verdict is 0 exactly where it is sound.
pub fn zero_is_sound()
    ensures { ZeroIsSound }
{}

// The worked histories have the verdicts of their table, by the definitions alone.
pub fn worked_rows_stand()
    ensures { Table }
{}
