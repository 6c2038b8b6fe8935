// What a thread is at.
use super::answer::Answer;
use super::check_step::CheckStep;
use super::kept::KeptSlot;
use super::put_step::PutStep;
use super::take_step::TakeStep;

// A put has its item; once that stands in a slot, the slot too, with the tag that it has there.
#[derive(Clone, Copy, Debug, PartialEq, Eq)]
pub enum Call {
    Idle,
    Putting(u32, PutStep),
    Checking(u32, KeptSlot, CheckStep),
    Taking(TakeStep),
    Answered(Answer),
}
