// A thread's call: its begin, its steps and its answer.
ghost use Rattle.std.specs.Prelude.{◌≡◌};
ghost use Rattle.steps.specs.Ring.{ring};
ghost use Rattle.steps.specs.Calls.{begun_put, begun_take, next_access, advanced, answer_of, in_flight, idle};

use super::access::{Access, Got};
use super::answer::Answer;
use super::call::Call;
use super::config::Config;
use super::put_step::PutStep;
use super::take_step::TakeStep;
use super::turn::Turn;

impl Call {
    // A put of an item that has made no step.
    pub fn put(item: u32) -> Call
        ensures { result ≡ begun_put item }
    {
        Call::Putting(item, PutStep::P1)
    }

    // A take that has made no step.
    pub fn take() -> Call
        ensures { result ≡ begun_take }
    {
        Call::Taking(TakeStep::D1)
    }

    // The access that the next step makes; nothing where no call is in flight.
    pub fn access(self, config: Config, start: u32) -> Option<Access>
        ensures { result ≡ next_access (ring config) start self }
    {
        let turn = Turn { config, start };
        match self {
            Call::Putting(item, step) => Some(step.access(turn, item)),
            Call::Checking(item, slot, step) => Some(step.access(config, item, slot)),
            Call::Taking(step) => Some(step.access(turn)),
            Call::Idle | Call::Answered(_) => None,
        }
    }

    // Moves on by what the access of this step returned. The state is matched in place, as the step tables are read.
    pub fn advance(&mut self, config: Config, start: u32, got: Got)
        ensures { self.new ≡ advanced (ring config) start self.old got }
    {
        let turn = Turn { config, start };
        *self = match *self {
            Call::Putting(item, step) => step.advanced(turn, item, got),
            Call::Checking(item, slot, step) => step.advanced(config, item, slot, got),
            Call::Taking(step) => step.advanced(turn, got),
            same => same,
        };
    }

    // The answer, once the call has it.
    pub fn answer(self) -> Option<Answer>
        ensures { result ≡ answer_of self }
    {
        match self {
            Call::Answered(answer) => Some(answer),
            _ => None,
        }
    }

    // Whether a call is in flight: begun and not answered.
    pub fn in_flight(self) -> bool
        ensures { result ≡ in_flight self }
    {
        !matches!(self, Call::Idle | Call::Answered(_))
    }

    pub fn is_idle(self) -> bool
        ensures { result ≡ idle self }
    {
        matches!(self, Call::Idle)
    }
}
