//! Laws of hearing. The bodies are empty: each contract is a law of the definitions.
ghost use Rattle.heard_messages.specs.Laws as Spec;

use crate::judge::Judge;

/// Messages mean one thing, and later ones add calls after those of the earlier ones, and nothing after one that ended the reading.
pub fn messages_mean_one_thing<J: Judge>()
    ensures one { Spec.HearsOneWay J.means }
    ensures on { Spec.HearingGoesOn J.means }
{}

/// Bytes mean one thing so far.
pub fn bytes_mean_one_thing<J: Judge>()
    ensures { Spec.HeardOneWay J.first J.means }
{}

/// Further bytes add calls after those of the earlier ones, and after an ending they change nothing.
pub fn further_bytes_add_calls<J: Judge>()
    ensures { Spec.HearingGrows J.first J.means }
{}

/// Bytes alone end the reading by a message or by a rule that they break: not at the end of the input, by their number or by a fault.
pub fn bytes_end_by_what_they_say<J: Judge>()
    ensures { Spec.BytesEnd J.first J.means }
{}

/// A stream that was read to an ending of its bytes or to its end means what these bytes mean as a whole input; and so do its calls
/// wherever the reading stopped.
pub fn whole_streams_are_inputs<J: Judge>()
    ensures ending { Spec.StreamIsInput J.first J.means }
    ensures calls { Spec.StreamHasInput J.first J.means }
{}
