// Opening a rig.
ghost use Rattle.rig.specs.Opening.{Opened};

use super::Rig;
use crate::thread::Thread;
use memory::Memory;
use steps::config::Config;

impl Rig {
    // Clears the memory; all threads are idle, and nothing was done yet.
    pub fn open<M: Memory>(config: Config, memory: &mut M) -> Rig
        ensures { Opened config (M.meaning memory.old) result (M.meaning memory.new) }
    {
        memory.clear();
        Rig {
            config,
            threads: [Thread::IDLE; 64],
            begun: 0,
            items: 0,
            events: 0,
            steps: 0,
        }
    }
}
