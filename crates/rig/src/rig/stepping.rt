// One step of a thread.
ghost use Rattle.std.specs.Prelude.{◌≡◌, ◌+◌, ◌<◌, length};
ghost use Rattle.rig.specs.Numbers.{progress_number, told};
ghost use Rattle.rig.specs.Worlds.{world};
ghost use Rattle.rig.specs.Stepping.{item_of, answer_event, next_call, stepped, StepAsked, Steps};

use super::Rig;
use crate::performing::perform;
use crate::pick::Pick;
use crate::progress::Progress;
use crate::refusal::Refusal;
use history::event::{Event, Kind};
use history::rows::MOST;
use memory::Memory;
use steps::access::Access;
use steps::answer::Answer;
use steps::call::Call;

// The most steps that a rig makes.
const MOST_STEPS: u32 = 1_000_000_000;

// The item that a put brings, 0 for other calls.
fn item_of(call: Call) -> u32
    ensures { result ≡ item_of call }
{
    match call {
        Call::Putting(item, _) | Call::Checking(item, _, _) => item,
        Call::Idle | Call::Taking(_) | Call::Answered(_) => 0,
    }
}

// The event of an answer that a thread got to this call.
fn answer_event(thread: u32, call: Call, answer: Answer) -> Event
    ensures { result ≡ answer_event thread call answer }
{
    let (kind, item) = match answer {
        Answer::Accepted => (Kind::Accepted, item_of(call)),
        Answer::Full => (Kind::Full, item_of(call)),
        Answer::Item(item) => (Kind::HandedOut, item),
        Answer::Empty => (Kind::Empty, 0),
    };
    Event { kind, thread, item }
}

impl Rig {
    // The questions before a step, and the access that it makes.
    fn ask_step<M: Memory>(
        &self,
        memory: &M,
        thread: u32,
        start: u32,
        history: &[Event],
    ) -> Result<Access, Refusal>
        ensures { StepAsked (world self.now (M.meaning memory.now) history.now) thread start result }
    {
        if memory.count() < self.config.slots() as usize {
            return Err(Refusal::TooFewSlots);
        }
        if thread >= self.config.threads() {
            return Err(Refusal::NoSuchThread);
        }
        let call = self.threads[thread as usize].call;
        let access = call
            .access(self.config, start)
            .ok_or(Refusal::NoCallInFlight)?;
        if self.events >= history.len().min(MOST) {
            return Err(Refusal::NoEntry);
        }
        if self.steps >= MOST_STEPS {
            return Err(Refusal::TooManySteps);
        }
        Ok(access)
    }

    // Makes the access of a thread's step, moves the thread on by what it returned, and writes the answer if that ends the call.
    fn make_step<M: Memory>(
        &mut self,
        memory: &mut M,
        thread: u32,
        start: u32,
        access: Access,
        history: &mut [Event],
    ) -> Progress
        requires { (thread < 64) × ((self.old.events < 65536) × ((self.old.events < length history.old) × (self.old.steps < 1000000000))) }
        ensures says { progress_number result ≡ told (next_call (world self.old (M.meaning memory.old) history.old) thread start access) }
        ensures leaves { world self.new (M.meaning memory.new) history.new ≡ stepped (world self.old (M.meaning memory.old) history.old) thread start access }
    {
        let t = thread as usize;
        let before = self.threads[t].call;
        let got = perform(memory, access);
        self.threads[t].call.advance(self.config, start, got);
        self.steps += 1;
        let after = self.threads[t].call;
        if let Some(answer) = after.answer() {
            history[self.events] = answer_event(thread, before, answer);
            self.events += 1;
        }
        Progress::from(after)
    }

    // One step of the picked thread; flat where none is picked.
    pub fn step<M: Memory>(
        &mut self,
        memory: &mut M,
        pick: Pick,
        history: &mut [Event],
    ) -> Result<Progress, Refusal>
        ensures { Steps (world self.old (M.meaning memory.old) history.old) pick result (world self.new (M.meaning memory.new) history.new) }
    {
        let Pick { thread, start } = pick;
        let Some(thread) = thread else {
            return Ok(Progress::Flat);
        };
        let access = self.ask_step(memory, thread, start, history)?;
        Ok(self.make_step(memory, thread, start, access, history))
    }
}
