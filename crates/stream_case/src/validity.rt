//! Tests of a valid case.
ghost use Rattle.std.specs.Prelude.{◌≡◌, ◌≢◌, ◌↔◌, ◌⊎◌, ◌≤◌, ◌<◌, IsTrue, All, AllPairs, Contains, [], length, ℕ, slice_index_or};
ghost use Rattle.stream_case.specs.Name.{IsName};
ghost use Rattle.stream_case.specs.Stream.{IsSensible, IsLatent, IsValidStream, AreStreams, HasValidStreams};
ghost use Rattle.stream_case.specs.Utility.{IsValidUtility};
ghost use Rattle.stream_case.specs.Limits.{IsBetween, IsTemperature, IsContribution};
ghost use Rattle.stream_case.specs.Case.{IsUnreserved, IsRightlyNamed, IsValidForbid, IsValid, with_utilities, names_of};

use crate::case::{Case, Forbid, side_among};
use crate::limits::{
    HIGHEST_TEMPERATURE, LOWEST_TEMPERATURE, MOST_CONTRIBUTION, MOST_CP, MOST_FORBIDS, MOST_HEAT,
    MOST_LOAD, MOST_PRICE, MOST_STREAMS, MOST_UTILITIES,
};
use crate::name::Name;
use crate::source::Side;
use crate::stream::{Stream, count_on};
use crate::utility::Utility;

fn is_between(low: i64, high: i64, x: i64) -> bool
    ensures { IsTrue result ↔ IsBetween low high x }
{
    low <= x && x <= high
}

fn is_temperature(t: i32) -> bool
    ensures { IsTrue result ↔ IsTemperature t }
{
    is_between(
        i64::from(LOWEST_TEMPERATURE),
        i64::from(HIGHEST_TEMPERATURE),
        i64::from(t),
    )
}

fn is_contribution(contribution: i32) -> bool
    ensures { IsTrue result ↔ IsContribution contribution }
{
    is_between(0, i64::from(MOST_CONTRIBUTION), i64::from(contribution))
}

fn is_undotted(name: &Name) -> bool
    ensures { IsTrue result ↔ IsName name.now }
{
    let _ = name.as_bytes();
    !name.is_dotted()
}

fn is_sensible(stream: &Stream) -> bool
    ensures { IsTrue result ↔ IsSensible stream.now }
{
    if !stream.side.is_right_way(stream.supply, stream.target) {
        return false;
    }
    is_between(1, MOST_CP, stream.cp) && stream.load == 0
}

fn is_latent(stream: &Stream) -> bool
    ensures { IsTrue result ↔ IsLatent stream.now }
{
    if stream.supply != stream.target || stream.cp != 0 {
        return false;
    }
    is_between(1, MOST_LOAD, stream.load)
}

fn is_sensible_or_latent(stream: &Stream) -> bool
    ensures { IsTrue result ↔ IsSensible stream.now ⊎ IsLatent stream.now }
{
    is_sensible(stream) || is_latent(stream)
}

fn is_valid_stream(stream: &Stream) -> bool
    ensures { IsTrue result ↔ IsValidStream stream.now }
{
    if !is_undotted(&stream.name) {
        return false;
    }
    if !is_temperature(stream.supply) {
        return false;
    }
    if !is_temperature(stream.target) {
        return false;
    }
    if !is_sensible_or_latent(stream) {
        return false;
    }
    is_contribution(stream.contribution)
}

fn is_valid_utility(utility: &Utility) -> bool
    ensures { IsTrue result ↔ IsValidUtility utility.now }
{
    if !is_undotted(&utility.name) {
        return false;
    }
    if !is_temperature(utility.level) {
        return false;
    }
    if !is_between(0, MOST_HEAT, utility.least) {
        return false;
    }
    if !is_between(utility.least, MOST_HEAT, utility.most) {
        return false;
    }
    if !is_between(-MOST_PRICE, MOST_PRICE, utility.price) {
        return false;
    }
    is_contribution(utility.contribution)
}

fn are_valid_streams(streams: &[Stream]) -> bool
    ensures { IsTrue result ↔ All IsValidStream streams.now }
{
    streams.iter().all(|stream| is_valid_stream(stream))
}

fn are_streams(streams: &[Stream]) -> bool
    ensures { IsTrue result ↔ AreStreams streams.now }
{
    if !are_valid_streams(streams) {
        return false;
    }
    if count_on(Side::Hot, streams) > MOST_STREAMS {
        return false;
    }
    count_on(Side::Cold, streams) <= MOST_STREAMS
}

fn has_valid_streams(streams: &[Stream]) -> bool
    ensures { IsTrue result ↔ HasValidStreams streams.now }
{
    if streams.is_empty() {
        return false;
    }
    are_streams(streams)
}

fn has_name(name: &Name, bytes: &[u8]) -> bool
    ensures { IsTrue result ↔ (name.now ≡ bytes.now) }
{
    name.as_bytes() == bytes
}

/// Whether a stream may have the name.
fn is_unreserved(name: &Name) -> bool
    ensures { IsTrue result ↔ IsUnreserved name.now }
{
    !has_name(name, b"HOT") && !has_name(name, b"COLD")
}

/// Whether the name is not that of the standard utility of the other side.
fn is_rightly_named(utility: &Utility) -> bool
    ensures { IsTrue result ↔ IsRightlyNamed utility.now }
{
    match utility.side {
        Side::Hot => !has_name(&utility.name, b"COLD"),
        Side::Cold => !has_name(&utility.name, b"HOT"),
    }
}

fn are_unreserved(streams: &[Stream]) -> bool
    ensures { IsTrue result ↔ All (λ s. IsUnreserved s.name) streams.now }
{
    streams.iter().all(|stream| is_unreserved(&stream.name))
}

fn are_rightly_named(utilities: &[Utility]) -> bool
    ensures { IsTrue result ↔ All IsRightlyNamed utilities.now }
{
    utilities.iter().all(|utility| is_rightly_named(utility))
}

fn are_valid_utilities(utilities: &[Utility]) -> bool
    ensures { IsTrue result ↔ All IsValidUtility utilities.now }
{
    utilities.iter().all(|utility| is_valid_utility(utility))
}

/// The name at an index of the list of names, in which the streams come first.
fn name_at(case: &Case, utilities: &[Utility], index: usize) -> Name
    requires { index < length (names_of (with_utilities case.now utilities.now)) }
    ensures { result
        ≡ slice_index_or (names_of (with_utilities case.now utilities.now)) index [] }
{
    let streams = case.streams.as_slice();
    if index < streams.len() {
        streams[index].name
    } else {
        utilities[index - streams.len()].name
    }
}

/// Whether no earlier source has the name at this index.
fn is_new_name(case: &Case, utilities: &[Utility], index: usize) -> bool
    requires { index < length (names_of (with_utilities case.now utilities.now)) }
    ensures { let names = names_of (with_utilities case.now utilities.now) in
        IsTrue result
        ↔ ((i : ℕ) → i < index
        → slice_index_or names i [] ≢ slice_index_or names index []) }
{
    let name = name_at(case, utilities, index);
    for earlier in 0..index {
        if name_at(case, utilities, earlier) == name {
            return false;
        }
    }
    true
}

fn has_distinct_names(case: &Case, utilities: &[Utility]) -> bool
    ensures { IsTrue result
        ↔ AllPairs (λ a b. a ≢ b) (names_of (with_utilities case.now utilities.now)) }
{
    let streams = case.streams.as_slice();
    for index in 0..streams.len() + utilities.len() {
        if !is_new_name(case, utilities, index) {
            return false;
        }
    }
    true
}

fn is_valid_forbid(case: &Case, utilities: &[Utility], forbid: &Forbid) -> bool
    ensures { IsTrue result
        ↔ IsValidForbid (with_utilities case.now utilities.now) forbid.now }
{
    let streams = case.streams.as_slice();
    side_among(streams, utilities, forbid.hot) == Some(Side::Hot)
        && side_among(streams, utilities, forbid.cold) == Some(Side::Cold)
}

fn are_valid_forbids(case: &Case, utilities: &[Utility]) -> bool
    ensures { IsTrue result
        ↔ All (IsValidForbid (with_utilities case.now utilities.now)) case.now.forbids }
{
    case.forbids
        .as_slice()
        .iter()
        .all(|forbid| is_valid_forbid(case, utilities, forbid))
}

fn contains_forbid(forbids: &[Forbid], forbid: &Forbid) -> bool
    ensures { IsTrue result ↔ Contains forbids.now forbid.now }
{
    forbids.contains(forbid)
}

fn are_distinct_forbids(forbids: &[Forbid]) -> bool
    ensures { IsTrue result ↔ AllPairs (λ f g. f ≢ g) forbids.now }
{
    for (index, forbid) in forbids.iter().enumerate() {
        if contains_forbid(&forbids[..index], forbid) {
            return false;
        }
    }
    true
}

fn has_valid_sources(case: &Case, utilities: &[Utility]) -> bool
    ensures { let k = with_utilities case.now utilities.now in
        IsTrue result
        ↔ (HasValidStreams k.streams
        × (length k.utilities ≤ MOST_UTILITIES)
        × All IsValidUtility k.utilities) }
{
    if !has_valid_streams(case.streams.as_slice()) {
        return false;
    }
    if utilities.len() > MOST_UTILITIES {
        return false;
    }
    are_valid_utilities(utilities)
}

fn has_valid_names(case: &Case, utilities: &[Utility]) -> bool
    ensures { let k = with_utilities case.now utilities.now in
        IsTrue result
        ↔ (All (λ s. IsUnreserved s.name) k.streams
        × All IsRightlyNamed k.utilities
        × AllPairs (λ a b. a ≢ b) (names_of k)) }
{
    if !are_unreserved(case.streams.as_slice()) {
        return false;
    }
    if !are_rightly_named(utilities) {
        return false;
    }
    has_distinct_names(case, utilities)
}

fn has_valid_forbids(case: &Case, utilities: &[Utility]) -> bool
    ensures { let k = with_utilities case.now utilities.now in
        IsTrue result
        ↔ ((length k.forbids ≤ MOST_FORBIDS)
        × All (IsValidForbid k) k.forbids
        × AllPairs (λ f g. f ≢ g) k.forbids) }
{
    if case.forbids.len() > MOST_FORBIDS {
        return false;
    }
    if !are_valid_forbids(case, utilities) {
        return false;
    }
    are_distinct_forbids(case.forbids.as_slice())
}

/// Whether the case with these utilities in place of its own is valid.
pub(crate) fn is_valid_with(case: &Case, utilities: &[Utility]) -> bool
    ensures { IsTrue result ↔ IsValid (with_utilities case.now utilities.now) }
{
    if !is_contribution(case.contribution) {
        return false;
    }
    if !has_valid_sources(case, utilities) {
        return false;
    }
    if !has_valid_names(case, utilities) {
        return false;
    }
    has_valid_forbids(case, utilities)
}

/// Whether the case is one that a case file can give: every number is in its range, there is a
/// stream and no more streams, utilities and forbidden matches than the limits, the names are
/// undotted and differ, `HOT` names only a hot utility and `COLD` only a cold one, and each
/// forbidden match joins a hot source with a cold one, no pair twice (this project's rule).
pub fn is_valid(case: &Case) -> bool
    ensures { IsTrue result ↔ IsValid case.now }
{
    is_valid_with(case, case.utilities.as_slice())
}
