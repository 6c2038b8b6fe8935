// A verdict as text.
ghost use Rattle.std.specs.Prelude.{Some};
ghost use Rattle.judge.specs.VerdictText.{verdict_text};

use super::verdict::Verdict;
use std::fmt;

impl fmt::Display for Verdict {
    ghost output = { λ v. Some (verdict_text v) };

    fn fmt<W: fmt::Write>(&self, f: &mut fmt::Formatter<W>) -> fmt::Result {
        match *self {
            Verdict::Sound => write!(f, "sound"),
            Verdict::Fault(fault, event) => {
                let number = u32::from(fault);
                write!(f, "{number}:{event}")
            }
        }
    }
}
