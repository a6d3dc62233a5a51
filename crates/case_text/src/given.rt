//! What the rows that were read gave.

ghost use Rattle.std.specs.Prelude.{◌≡◌, [], ◌∷◌, Some, length, map, is_some, IfOk, OnOk, MatchOption, None, OnErr};
ghost use Rattle.first_fault.specs.Checks.{Checked};
ghost use Rattle.stream_case.specs.Case.{is_forbidden, side_of, source_named};
ghost use Rattle.stream_case.specs.Stream.{count_on};
ghost use Rattle.case_text.specs.Given.{case_of, case_with, nothing, source_at, stream_of, utility_of, with_entry};
ghost use Rattle.case_text.specs.Checks.{end_checks, is_source, is_taken};
ghost use Rattle.case_text.specs.Additions.{IsFresh, TakesMemory};
ghost use Rattle.keyed_index.specs.Key.{keyed_by};

use crate::entry::{Entry, StreamData, UtilityData};
use crate::fault::CaseWhy;
use indexmap::IndexMap;
use keyed_index::{KeyedMap, TextKey};
use std::alloc::{AllocError, Global};
use std::marker::Model;
use stream_case::{Case, Forbid, Items, Name, Side, Source, Stream, Utility};

/// What the rows read so far gave.
#[derive(Drop)]
pub struct Given {
    contribution: Option<i32>,
    streams: KeyedMap<Name, StreamData>,
    utilities: KeyedMap<Name, UtilityData>,
    forbids: Vec<Forbid>,
}

impl Model for Given {
    ghost use Rattle.std.specs.Prelude.{◌≡◌};
    ghost use Rattle.case_text.specs.Given.{KeyedGiven};
    ghost use Rattle.case_text.specs.Additions.{HasFewSources};
    ghost use Rattle.indexmap.specs.IndexMap.{hasher_of};
    ghost use Rattle.keyed_index.specs.Key.{begun_by};

    ghost Value = { KeyedGiven };

    ghost view = { λ f. record {
      rows = record {
        contribution = f.contribution;
        streams = f.streams.entries;
        utilities = f.utilities.entries;
        forbids = f.forbids.items;
      };
      key = begun_by (hasher_of f.streams);
    } };

    ghost invariant = { λ f. HasFewSources f.streams.entries f.utilities.entries
        × (hasher_of f.utilities ≡ hasher_of f.streams) };
}

impl Given {
    /// Nothing yet. The hashes of the names have the key of this text.
    pub fn new(alloc: Global, text: &[u8]) -> Given
        ensures nothing { result.rows ≡ nothing }
        ensures key { result.key ≡ keyed_by text.now }
    {
        let key = TextKey::of_text(text);
        Given {
            contribution: None,
            streams: IndexMap::with_hasher(alloc, key),
            utilities: IndexMap::with_hasher(alloc, key),
            forbids: Vec::new(alloc),
        }
    }

    /// Whether an earlier row gave a contribution.
    pub fn has_contribution(&self) -> bool
        ensures { result ≡ is_some self.now.rows.contribution }
    {
        self.contribution.is_some()
    }

    /// Whether an earlier stream or utility has this name.
    #[tactic(auto, unfolding(crate::specs::Checks::is_taken))]
    pub fn has_name(&self, name: &Name) -> bool
        ensures { result ≡ is_taken (case_of self.now.rows) name.now }
    {
        self.streams.contains_key(name) || self.utilities.contains_key(name)
    }

    /// How many streams a side has.
    pub fn count_streams(&self, side: Side) -> usize
        ensures { result ≡ count_on side (case_of self.now.rows).streams }
    {
        self.streams
            .iter()
            .filter(|(_, stream)| stream.side == side)
            .count()
    }

    /// How many utilities there are, on both sides.
    pub fn count_utilities(&self) -> usize
        ensures { result ≡ length self.now.rows.utilities }
    {
        self.utilities.len()
    }

    /// How many matches are forbidden.
    pub fn count_forbids(&self) -> usize
        ensures { result ≡ length self.now.rows.forbids }
    {
        self.forbids.len()
    }

    /// The earlier source with this name, and its side.
    fn source_named(&self, name: &Name) -> Option<(Source, Side)>
        ensures { MatchOption result (source_named (case_of self.now.rows) name.now ≡ None)
            (λ s. (source_named (case_of self.now.rows) name.now ≡ Some s.0)
            × (side_of (case_of self.now.rows) s.0 ≡ Some s.1)) }
    {
        if let Some((index, _, stream)) = self.streams.get_full(name) {
            return Some((Source::Stream(index as u32), stream.side));
        }
        let (index, _, utility) = self.utilities.get_full(name)?;
        Some((Source::Utility(index as u32), utility.side))
    }

    /// The earlier source with this name, if it is one of this side.
    #[tactic(auto, unfolding(crate::specs::Checks::is_source))]
    pub fn source(&self, side: Side, name: &Name) -> Result<Source, CaseWhy>
        ensures { Checked
            ((is_source side (case_of self.now.rows) name.now, CaseWhy.UnknownName) ∷ [])
            (λ source. source ≡ source_at self.now.rows name.now) result }
    {
        match self.source_named(name) {
            Some((source, own)) if own == side => Ok(source),
            _ => Err(CaseWhy::UnknownName),
        }
    }

    /// Whether an earlier row forbade this match.
    pub fn is_forbidden(&self, forbid: Forbid) -> bool
        ensures { result ≡ is_forbidden self.now.rows.forbids forbid.hot forbid.cold }
    {
        self.forbids.contains(&forbid)
    }

    /// Takes what a row gave. A row that is passed over takes no memory, nor does a contribution.
    pub fn add(&mut self, entry: Entry) -> Result<(), AllocError>
        requires { IsFresh self.old.rows entry }
        ensures added { OnOk result
            (self.new ≡ record self.old { rows = with_entry self.old.rows entry }) }
        ensures memory { OnErr result (TakesMemory entry) }
    {
        match entry {
            Entry::Nothing => {}
            Entry::Contribution(contribution) => self.contribution = Some(contribution),
            Entry::Stream(name, stream) => self.add_stream(name, stream)?,
            Entry::Utility(name, utility) => self.add_utility(name, utility)?,
            Entry::Forbid(forbid) => self.forbids.push(forbid)?,
        }
        Ok(())
    }

    /// Takes a stream with a new name.
    fn add_stream(&mut self, name: Name, stream: StreamData) -> Result<(), AllocError>
        requires { IsFresh self.old.rows (Entry.Stream name stream) }
        ensures { OnOk result (self.new ≡ record self.old {
          rows = with_entry self.old.rows (Entry.Stream name stream);
        }) }
    {
        self.streams.insert(name, stream)?;
        Ok(())
    }

    /// Takes a utility with a new name.
    fn add_utility(&mut self, name: Name, utility: UtilityData) -> Result<(), AllocError>
        requires { IsFresh self.old.rows (Entry.Utility name utility) }
        ensures { OnOk result (self.new ≡ record self.old {
          rows = with_entry self.old.rows (Entry.Utility name utility);
        }) }
    {
        self.utilities.insert(name, utility)?;
        Ok(())
    }

    /// The contribution of a whole file, or what the file lacks.
    #[tactic(auto, unfolding(crate::specs::Checks::end_checks))]
    pub fn contribution(&self) -> Result<i32, CaseWhy>
        ensures { Checked (end_checks self.now.rows)
            (λ c. self.now.rows.contribution ≡ Some c) result }
    {
        let contribution = self.contribution.ok_or(CaseWhy::NoContribution)?;
        if self.streams.is_empty() {
            return Err(CaseWhy::NoStream);
        }
        Ok(contribution)
    }

    /// The streams, in a case with this contribution.
    fn streams(&self, alloc: Global, contribution: i32) -> Result<Vec<Stream>, AllocError>
        ensures { IfOk result
            (λ streams. streams.items ≡ map (stream_of contribution) self.now.rows.streams) }
    {
        self.streams
            .iter()
            .map(|(name, stream)| stream.named(*name, contribution))
            .collect(alloc)
    }

    /// The utilities, in a case with this contribution.
    fn utilities(&self, alloc: Global, contribution: i32) -> Result<Vec<Utility>, AllocError>
        ensures { IfOk result
            (λ utilities. utilities.items ≡ map (utility_of contribution) self.now.rows.utilities) }
    {
        self.utilities
            .iter()
            .map(|(name, utility)| utility.named(*name, contribution))
            .collect(alloc)
    }

    /// The case with this contribution, in tenths of °C: each source that gave none of its own has it.
    pub fn case(&self, alloc: Global, contribution: i32) -> Result<Case, AllocError>
        ensures { IfOk result (λ case. case ≡ case_with contribution self.now.rows) }
    {
        Ok(Case {
            contribution,
            streams: Items::from_vec(self.streams(alloc, contribution)?),
            utilities: Items::from_vec(self.utilities(alloc, contribution)?),
            forbids: Items::from_vec(Vec::from_slice(alloc, self.forbids.as_slice())?),
        })
    }
}
