// The configuration of a queue and its threads.
ghost use Rattle.std.specs.Prelude.{◌≡◌, ◌*◌, ◌≤◌};
ghost use Rattle.steps.specs.Configs.{Made};

use super::config_refusal::ConfigRefusal;
use bounded::Bounded;

// k is the number of slots in a segment.
#[derive(Clone, Copy, Debug, PartialEq, Eq)]
pub struct Config {
    k: Bounded<1, 64>,
    segments: Bounded<2, 64>,
    threads: Bounded<1, 64>,
}

impl Config {
    // Refused by the first of the three that is out of its range.
    pub fn new(k: u32, segments: u32, threads: u32) -> Result<Config, ConfigRefusal>
        ensures { Made k segments threads result }
    {
        Ok(Config {
            k: Bounded::new(k).ok_or(ConfigRefusal::SegmentSize)?,
            segments: Bounded::new(segments).ok_or(ConfigRefusal::Segments)?,
            threads: Bounded::new(threads).ok_or(ConfigRefusal::Threads)?,
        })
    }

    pub fn k(self) -> u32
        ensures { result ≡ self.k.number }
    {
        self.k.get()
    }

    pub fn segments(self) -> u32
        ensures { result ≡ self.segments.number }
    {
        self.segments.get()
    }

    pub fn threads(self) -> u32
        ensures { result ≡ self.threads.number }
    {
        self.threads.get()
    }

    // The slots of all segments.
    pub fn slots(self) -> u32
        ensures is { result ≡ self.k.number * self.segments.number }
        ensures least { self.k.number ≤ result }
        ensures most { result ≤ 4096 }
    {
        let Config { k, segments, .. } = self;
        k.get() * segments.get()
    }
}
