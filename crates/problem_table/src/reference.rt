//! The reference place.
ghost use Rattle.std.specs.Prelude.{◌≡◌, ◌↔◌, ◌∷◌, ◌++◌, [], List, ℤ, IsTrue};
ghost use Rattle.stream_case.specs.Stream.{AreStreams, HasValidStreams};
ghost use Rattle.problem_table.specs.Deficit.{hot_target, IsReferencePlace, CountsFromItself, FindsHighestTight};

use crate::target::{hot_target, is_tight, is_tight_over};
use stream_case::{Case, Stream};

/// Where the heat of a network is watched: heat that goes across this place is lost.
#[derive(Clone, Copy, Debug, PartialEq, Eq)]
pub struct Reference {
    /// The reference place, a shifted temperature in tenths of °C.
    pub place: i32,
    /// Whether a latent stream at the place itself counts as above it.
    pub from_itself: bool,
}

/// The reference place of the streams of a case: the highest shifted stream end at which one of the
/// deficits is the hot target, in tenths of °C (this project's rule). There always is one.
pub fn reference_place(case: &Case) -> i32
    requires { HasValidStreams case.now.streams }
    ensures { IsReferencePlace case.now.streams result }
{
    reference_place_of(case.streams.as_slice())
}

/// Whether the reference place of the streams of a case counts from itself: whether the deficit
/// above it isn't the hot target, so that a latent stream at the place itself counts as above it.
pub fn reference_from(case: &Case) -> bool
    requires { HasValidStreams case.now.streams }
    ensures { (place : ℤ) → IsReferencePlace case.now.streams place
        → (IsTrue result ↔ CountsFromItself case.now.streams place) }
{
    reference_from_of(case.streams.as_slice())
}

// The same of streams.
pub(crate) fn reference_from_of(streams: &[Stream]) -> bool
    requires { HasValidStreams streams.now }
    ensures { (place : ℤ) → IsReferencePlace streams.now place
        → (IsTrue result ↔ CountsFromItself streams.now place) }
{
    counts_from_itself(streams, reference_place_of(streams))
}

/// The reference place of the streams of a case, with whether it counts from itself: the two in one
/// search.
pub fn reference_of(case: &Case) -> Reference
    requires { HasValidStreams case.now.streams }
    ensures place { IsReferencePlace case.now.streams result.place }
    ensures from_itself { IsTrue result.from_itself
        ↔ CountsFromItself case.now.streams result.place }
{
    let streams = case.streams.as_slice();
    let place = reference_place_of(streams);
    let from_itself = counts_from_itself(streams, place);
    Reference { place, from_itself }
}

// Whether this reference place of the streams counts from itself.
fn counts_from_itself(streams: &[Stream], place: i32) -> bool
    requires streams { HasValidStreams streams.now }
    requires place { IsReferencePlace streams.now place }
    ensures { (other : ℤ) → IsReferencePlace streams.now other
        → (IsTrue result ↔ CountsFromItself streams.now other) }
{
    !is_tight_over(streams, hot_target(streams), false, place)
}

// The reference place of streams.
pub(crate) fn reference_place_of(streams: &[Stream]) -> i32
    requires { HasValidStreams streams.now }
    ensures { IsReferencePlace streams.now result }
{
    let hot = hot_target(streams);
    let mut place = None;
    for stream in streams {
        place = higher_tight(streams, hot, place, stream.high_end());
        place = higher_tight(streams, hot, place, stream.low_end());
    }
    place.unwrap()
}

// The end in place of `place`, if one of its deficits is the hot target and it is higher.
fn higher_tight(streams: &[Stream], hot: i64, place: Option<i32>, end: i32) -> Option<i32>
    requires streams { AreStreams streams.now }
    requires hot { hot ≡ hot_target streams.now }
    ensures { (ends : List ℤ) → FindsHighestTight streams.now ends place
        → FindsHighestTight streams.now (ends ++ end ∷ []) result }
{
    if !is_tight(streams, hot, end) {
        return place;
    }
    match place {
        None => Some(end),
        Some(found) => Some(found.max(end)),
    }
}
