// The segments, in a ring.
ghost use Rattle.std.specs.Prelude.{◌≡◌};
ghost use Rattle.steps.specs.Ring.{ring, position, next, distance, segment_of, marker};

use super::config::Config;
use super::kept::Marker;

impl Config {
    // The position that a marker's number stands for.
    pub(crate) fn position(self, number: u32) -> u32
        ensures { result ≡ position (ring self) number }
    {
        if number < self.slots() && number % self.k() == 0 {
            number
        } else {
            0
        }
    }

    // A marker that was read, as it is kept.
    pub(crate) fn marker(self, tag: u32, number: u32) -> Marker
        ensures { result ≡ marker (ring self) tag number }
    {
        Marker {
            tag,
            at: self.position(number),
        }
    }

    // The position of the segment after the one at `at`.
    pub(crate) fn next(self, at: u32) -> u32
        ensures { result ≡ next (ring self) at }
    {
        let last = self.slots() - self.k();
        if at < last { at + self.k() } else { 0 }
    }

    // How far `to` lies from `from`, going round.
    pub(crate) fn distance(self, from: usize, to: usize) -> usize
        ensures { result ≡ distance (ring self) from to }
    {
        let whole = self.slots() as usize;
        (to % whole + (whole - from % whole)) % whole
    }

    // The position of the segment that holds a slot.
    pub(crate) fn segment_of(self, index: usize) -> usize
        ensures { result ≡ segment_of (ring self) index }
    {
        index - index % (self.k() as usize)
    }
}
