// What the judge finds.
ghost use Rattle.std.specs.Prelude.{◌≡◌};
ghost use Rattle.judge.specs.Verdicts.{verdict_number};

use super::fault::Fault;

// Fault has the fault and the event that shows it, counted from 0. It is no Option, since a verdict is printed.
#[derive(Clone, Copy, Debug, PartialEq, Eq)]
pub enum Verdict {
    Sound,
    Fault(Fault, usize),
}

impl From<Verdict> for u32 {
    ghost from_gives = { λ verdict n. n ≡ verdict_number verdict };

    fn from(verdict: Verdict) -> u32 {
        match verdict {
            Verdict::Sound => 0,
            Verdict::Fault(fault, _) => u32::from(fault),
        }
    }
}
