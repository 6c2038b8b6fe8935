// The calls in flight.
ghost use Rattle.std.specs.Prelude.{◌≡◌, ◌≤◌};
ghost use Rattle.rig.specs.Worlds.{state, flights};

use super::Rig;

impl Rig {
    pub(crate) fn in_flight(&self) -> usize
        ensures is { result ≡ flights (state self.now) }
        ensures few { result ≤ 64 }
    {
        // A loop: the iterator's `filter` and `count` take half as long again where most threads have a call in flight (docs/measurements.md).
        let mut count = 0;
        for thread in &self.threads {
            if thread.call.in_flight() {
                count += 1;
            }
        }
        count
    }
}
