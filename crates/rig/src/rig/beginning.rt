// The begin of a call.
ghost use Rattle.std.specs.Prelude.{◌≡◌, ◌+◌, ◌<◌, ◌≤◌, length, slice_set};
ghost use Rattle.rig.specs.Refusals.{Asked};
ghost use Rattle.rig.specs.Worlds.{state, world};
ghost use Rattle.rig.specs.Beginning.{begin_no, begun_rig, token_of, TakeBegins, PutBegins};

use super::Rig;
use crate::refusal::Refusal;
use crate::thread::Thread;
use crate::token::CallToken;
use history::event::{Event, Kind};
use history::rows::MOST;
use memory::Memory;
use steps::call::Call;

impl Rig {
    // The questions before a begin. A put asks for a row of the item table too, so it says whether there is one.
    fn ask_begin<M: Memory>(
        &self,
        memory: &M,
        thread: u32,
        history: &[Event],
        row: bool,
    ) -> Result<(), Refusal>
        ensures { Asked (begin_no (world self.now (M.meaning memory.now) history.now) thread row) result }
    {
        if memory.count() < self.config.slots() as usize {
            return Err(Refusal::TooFewSlots);
        }
        if thread >= self.config.threads() {
            return Err(Refusal::NoSuchThread);
        }
        if !self.threads[thread as usize].call.is_idle() {
            return Err(Refusal::NotIdle);
        }
        if self.events + self.in_flight() + 2 > history.len().min(MOST) {
            return Err(Refusal::NoEntry);
        }
        if !row {
            return Err(Refusal::NoRow);
        }
        Ok(())
    }

    // Sets the thread to the first step of its call and writes the begin.
    fn begin(
        &mut self,
        thread: u32,
        call: Call,
        items: u32,
        event: Event,
        history: &mut [Event],
    ) -> CallToken
        requires { (thread < 64) × ((items ≤ self.old.begun + 1) × ((self.old.events < 65536) × (self.old.events < length history.old))) }
        ensures token { result ≡ token_of (state self.old) thread }
        ensures rig { state self.new ≡ begun_rig (state self.old) thread call items }
        ensures history { history.new ≡ slice_set history.old self.old.events event }
    {
        let number = self.begun + 1;
        self.threads[thread as usize] = Thread {
            call,
            number: Some(number),
        };
        history[self.events] = event;
        self.events += 1;
        self.begun = number;
        self.items = items;
        CallToken { thread, number }
    }

    pub fn begin_take<M: Memory>(
        &mut self,
        memory: &M,
        thread: u32,
        history: &mut [Event],
    ) -> Result<CallToken, Refusal>
        ensures { TakeBegins (world self.old (M.meaning memory.now) history.old) thread result (world self.new (M.meaning memory.now) history.new) }
    {
        self.ask_begin(memory, thread, history, true)?;
        let event = Event {
            kind: Kind::TakeBegun,
            thread,
            item: 0,
        };
        Ok(self.begin(thread, Call::take(), self.items, event, history))
    }

    pub fn begin_put<M: Memory, E: Copy>(
        &mut self,
        memory: &M,
        thread: u32,
        element: E,
        history: &mut [Event],
        items: &mut [E],
    ) -> Result<CallToken, Refusal>
        ensures { PutBegins (world self.old (M.meaning memory.now) history.old) items.old thread element result (world self.new (M.meaning memory.now) history.new) items.new }
    {
        let row = self.items as usize;
        self.ask_begin(memory, thread, history, row < items.len().min(MOST))?;
        items[row] = element;
        let item = self.items + 1;
        let event = Event {
            kind: Kind::PutBegun,
            thread,
            item,
        };
        Ok(self.begin(thread, Call::put(item), item, event, history))
    }
}
