// Closing a rig.
ghost use Rattle.std.specs.Prelude.{◌≡◌};
ghost use Rattle.rig.specs.Worlds.{state};
ghost use Rattle.rig.specs.Closing.{summed};

use super::Rig;
use crate::summary::Summary;

impl Rig {
    // Ends the rig and says what it did.
    pub fn close(self) -> Summary
        ensures { result ≡ summed (state self) }
    {
        let in_flight = self.in_flight();
        let Rig {
            config: _,
            threads: _,
            begun: _,
            items,
            events,
            steps,
        } = self;
        Summary {
            events,
            items,
            steps,
            in_flight,
        }
    }
}
