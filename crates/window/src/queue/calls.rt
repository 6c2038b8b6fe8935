// What is asked of the window queue.
ghost use Rattle.std.specs.Prelude.{◌≡◌, length};
ghost use Rattle.window.specs.Places.{content, queue, Made, Appended, Taken, Found};
ghost use Rattle.window.specs.Law.{FollowsSpecification};

use super::WindowQueue;
use crate::limit::WindowLimit;
use crate::places::{element_at, pull, put_at};
use crate::refusal::Refusal;

impl<'a, E: Copy> WindowQueue<'a, E> {
    // An empty queue whose window is k.
    pub fn new(places: &'a mut [E], limit: WindowLimit) -> WindowQueue<'a, E>
        ensures made { Made places.old limit.k.number (content result) }
        ensures law { FollowsSpecification E limit.k.number }
    {
        WindowQueue {
            places,
            len: 0,
            window: limit.k(),
            limit,
        }
    }

    // Puts an element last.
    pub fn append(&mut self, x: E) -> Result<(), Refusal>
        ensures { Appended (content self.old) x result (content self.new) }
    {
        put_at(self.places, self.len, x)?;
        self.len += 1;
        Ok(())
    }

    // The element at place `i`, counted from 1; nothing outside the queue.
    pub fn at(&self, i: usize) -> Option<E>
        ensures { Found i (queue (content self.now)).q result }
    {
        element_at(&self.places[..self.len], i)
    }

    // How far from the front a take may reach now.
    pub fn window(&self) -> u32
        ensures { result ≡ (queue (content self.now)).w }
    {
        self.window
    }

    // The number of elements.
    pub fn len(&self) -> usize
        ensures { result ≡ length (queue (content self.now)).q }
    {
        self.len
    }

    // Takes the element at place `i`, counted from 1, or with place 0 the empty answer.
    pub fn take_at(&mut self, i: usize) -> Result<Option<E>, Refusal>
        ensures { Taken i (content self.old) result (content self.new) }
    {
        if i == 0 {
            return self.take_nothing();
        }
        if i > self.window as usize || i > self.len {
            return Err(Refusal::NotAllowed);
        }
        let x = self.places[i - 1];
        pull(&mut self.places[..self.len], i - 1);
        self.len -= 1;
        self.window = if i == 1 {
            self.limit.k()
        } else {
            self.window - 1
        };
        Ok(Some(x))
    }

    fn take_nothing(&mut self) -> Result<Option<E>, Refusal>
        ensures { Taken 0 (content self.old) result (content self.new) }
    {
        if self.len > 0 {
            return Err(Refusal::NotAllowed);
        }
        self.window = self.limit.k();
        Ok(None)
    }
}
