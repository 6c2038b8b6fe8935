// The end of a call.
ghost use Rattle.std.specs.Prelude.{◌<◌};
ghost use Rattle.rig.specs.Worlds.{state};
ghost use Rattle.rig.specs.Collecting.{RepliedTo, CollectAsked, Collects};

use super::Rig;
use crate::refusal::Refusal;
use crate::reply::Reply;
use crate::thread::Thread;
use crate::token::{CallToken, Declined};
use history::rows::MOST;
use steps::answer::Answer;

// What an answer gives; nothing where the table has not the item's row.
fn reply_to<E: Copy>(answer: Answer, items: &[E]) -> Option<Reply<E>>
    ensures { RepliedTo items.now answer result }
{
    match answer {
        Answer::Accepted => Some(Answer::Accepted),
        Answer::Full => Some(Answer::Full),
        Answer::Empty => Some(Answer::Empty),
        Answer::Item(item) => {
            let used = items.len().min(MOST);
            let row = (item as usize).checked_sub(1)?;
            items[..used].get(row).copied().map(Answer::Item)
        }
    }
}

impl Rig {
    // The questions before a collect, and what it gives.
    fn ask_collect<E: Copy>(&self, token: &CallToken, items: &[E]) -> Result<Reply<E>, Refusal>
        ensures { CollectAsked (state self.now) items.now token.now result }
    {
        if token.thread >= self.config.threads() {
            return Err(Refusal::NoSuchThread);
        }
        let Thread { call, number } = self.threads[token.thread as usize];
        if number != Some(token.number) {
            return Err(Refusal::NotPresentCall);
        }
        let answer = call.answer().ok_or(Refusal::NotAnswered)?;
        reply_to(answer, items).ok_or(Refusal::NoRow)
    }

    // Spends the token of an answered call and gives what the call gave; the thread is idle then.
    pub fn collect<E: Copy>(&mut self, token: CallToken, items: &[E]) -> Result<Reply<E>, Declined>
        ensures { Collects (state self.old) items.now token result (state self.new) }
    {
        match self.ask_collect(&token, items) {
            Err(refusal) => Err(Declined { refusal, token }),
            Ok(reply) => {
                let CallToken { thread, number: _ } = token;
                self.threads[thread as usize] = Thread::IDLE;
                Ok(reply)
            }
        }
    }
}
