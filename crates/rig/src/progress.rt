// What a step answers.
ghost use Rattle.std.specs.Prelude.{◌≡◌};
ghost use Rattle.rig.specs.Numbers.{progress_number, told};

use steps::answer::Answer;
use steps::call::Call;

// Flat where no thread was picked; else the call goes on, or has its answer.
#[derive(Clone, Copy, Debug, PartialEq, Eq)]
pub enum Progress {
    Flat,
    Going,
    Ended(Answer),
}

// The number, with the item that the answer carries, else 0.
impl From<Progress> for (u32, u32) {
    ghost from_gives = { λ progress n. n ≡ progress_number progress };

    fn from(progress: Progress) -> (u32, u32) {
        match progress {
            Progress::Flat => (0, 0),
            Progress::Going => (1, 0),
            Progress::Ended(answer) => <(u32, u32)>::from(answer),
        }
    }
}

// Of a step that led to this call.
impl From<Call> for Progress {
    ghost from_gives = { λ call progress. progress_number progress ≡ told call };

    fn from(call: Call) -> Progress {
        call.answer().map_or(Progress::Going, Progress::Ended)
    }
}
