// What a collected call gives.
use steps::answer::Answer;

// The answer, with the element in place of the item's number.
pub type Reply<E> = Answer<E>;
