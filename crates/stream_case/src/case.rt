//! A case: the streams, the utilities, and the matches that are forbidden.
ghost use Rattle.std.specs.Prelude.{◌≡◌, ◌<◌, ◌^◌, length};
ghost use Rattle.stream_case.specs.Case.{IsSourceOf, is_forbidden, is_on, side_among, side_of, source_name, source_named, stream_named, utility_named};

use crate::items::Items;
use crate::name::Name;
use crate::source::{Side, Source};
use crate::stream::Stream;
use crate::utility::Utility;

/// A hot and a cold source that may not exchange heat.
#[derive(Clone, Copy, Debug, PartialEq, Eq, Hash)]
pub struct Forbid {
    pub hot: Source,
    pub cold: Source,
}

/// All that is known of a plant before its exchangers are bought.
#[derive(Debug, PartialEq, Eq, Drop)]
pub struct Case {
    /// The share of each source in the least approach, in tenths of °C. The least approach of
    /// a hot and a cold source is the sum of their contributions.
    pub contribution: i32,
    pub streams: Items<Stream>,
    pub utilities: Items<Utility>,
    pub forbids: Items<Forbid>,
}

impl Case {
    /// The side of a source, if the case has the source.
    pub fn side_of(&self, source: Source) -> Option<Side>
        ensures { result ≡ side_of self.now source }
    {
        side_among(self.streams.as_slice(), self.utilities.as_slice(), source)
    }

    /// Whether a source of the case is on this side.
    #[tactic(auto, unfolding(crate::specs::Case::is_on))]
    pub fn is_on(&self, side: Side, source: Source) -> bool
        ensures { result ≡ is_on self.now side source }
    {
        self.side_of(source) == Some(side)
    }

    /// The name of a source of the case.
    pub fn name_of(&self, source: Source) -> Name
        requires { IsSourceOf self.now source }
        ensures { result ≡ source_name self.now source }
    {
        match source {
            Source::Stream(index) => self.streams.as_slice()[index as usize].name,
            Source::Utility(index) => self.utilities.as_slice()[index as usize].name,
        }
    }

    /// The source with this name, if the case has one: the first stream with the name, and the
    /// first utility where no stream has it.
    #[tactic(auto, unfolding(crate::specs::Case::source_named))]
    pub fn source_named(&self, name: &[u8]) -> Option<Source>
        requires few_streams { length self.now.streams < 2 ^ 32 }
        requires few_utilities { length self.now.utilities < 2 ^ 32 }
        ensures { result ≡ source_named self.now name.now }
    {
        if let Some(index) = self.stream_named(name) {
            return Some(Source::Stream(index as u32));
        }
        let index = self.utility_named(name)?;
        Some(Source::Utility(index as u32))
    }

    /// The index of the first stream with this name, if the case has one.
    fn stream_named(&self, name: &[u8]) -> Option<usize>
        ensures { result ≡ stream_named self.now name.now }
    {
        self.streams
            .as_slice()
            .iter()
            .position(|stream| name == stream.name.as_bytes())
    }

    /// The index of the first utility with this name, if the case has one.
    pub fn utility_named(&self, name: &[u8]) -> Option<usize>
        ensures { result ≡ utility_named self.now name.now }
    {
        self.utilities
            .as_slice()
            .iter()
            .position(|utility| name == utility.name.as_bytes())
    }

    /// Whether a hot and a cold source are a forbidden match.
    pub fn is_forbidden(&self, hot: Source, cold: Source) -> bool
        ensures { result ≡ is_forbidden self.now.forbids hot cold }
    {
        self.forbids
            .as_slice()
            .iter()
            .any(|forbid| forbid.hot == hot && forbid.cold == cold)
    }
}

/// The side of a source among these streams and utilities, if it is one of them.
pub(crate) fn side_among(streams: &[Stream], utilities: &[Utility], source: Source) -> Option<Side>
    ensures { result ≡ side_among streams.now utilities.now source }
{
    match source {
        Source::Stream(index) => streams.get(index as usize).map(|stream| stream.side),
        Source::Utility(index) => utilities.get(index as usize).map(|utility| utility.side),
    }
}
