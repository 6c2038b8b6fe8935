// A thread's turn to make a step, and the probes of a search by it.
ghost use Rattle.std.specs.Prelude.{◌≡◌};
ghost use Rattle.steps.specs.Ring.{ring};
ghost use Rattle.steps.specs.Probes.{place, probe, further};

use super::config::Config;
use super::kept::Marker;
use super::search::Search;

// The configuration that the step is made in, and the start number that it was given.
#[derive(Clone, Copy)]
pub(crate) struct Turn {
    pub(crate) config: Config,
    pub(crate) start: u32,
}

impl Turn {
    // The place of a search's next probe.
    fn place(self, search: Search) -> u32
        ensures { result ≡ place (ring self.config) self.start search }
    {
        match search {
            Search::Fresh => self.start % self.config.k(),
            Search::Begun { last, .. } if last < self.config.k() - 1 => last + 1,
            Search::Begun { .. } => 0,
        }
    }

    // The slot of a search's next probe, in the segment of a marker.
    pub(crate) fn probe(self, segment: Marker, search: Search) -> usize
        ensures { result ≡ probe (ring self.config) self.start segment search }
    {
        segment.at as usize + self.place(search) as usize
    }

    // A search after its next probe; nothing where that is the last.
    pub(crate) fn further(self, search: Search) -> Option<Search>
        ensures { result ≡ further (ring self.config) self.start search }
    {
        let made = match search {
            Search::Fresh => 0,
            Search::Begun { made, .. } => made,
        };
        if made >= self.config.k() - 1 {
            return None;
        }
        Some(Search::Begun {
            made: made + 1,
            last: self.place(search),
        })
    }
}
