// What holds of every configuration's ring, as the contracts say.
ghost use Rattle.steps.specs.Ring.{ring};
ghost use Rattle.steps.specs.RingLaw.{RingLaw};
ghost use Rattle.steps.specs.SearchLaw.{SearchLaw};
ghost use Rattle.steps.specs.CallLaw.{CallLaw};

use super::config::Config;

// The segments stand in a ring.
pub fn ring_stands(config: Config)
    ensures { RingLaw (ring config) }
{}

// A search probes the k places of a segment in turn, from the one that its first start number names.
pub fn search_stands(config: Config)
    ensures { SearchLaw (ring config) }
{}

// Every access of a call stays in the ring, whatever those before it returned.
pub fn calls_stand(config: Config)
    ensures { CallLaw (ring config) }
{}
