//! The network that the statements read so far give.

ghost use Rattle.std.specs.Prelude.{◌≡◌, ◌≢◌, ◌==◌, ◌<◌, ◌≤◌, ◌+◌, ◌*◌, [], ◌∷◌, ◌++◌, false, length, map, AllPairs, is_some, IfOk, IfSome, IsSome, OnErr, OnOk};
ghost use Rattle.std.specs.List.{list_any};
ghost use Rattle.std.specs.Map.{keys_of};
ghost use Rattle.std.specs.Option.{ForSome, option_to_list};
ghost use Rattle.std.specs.Str.{bytes_eq};
ghost use Rattle.indexmap.specs.IndexMap.{hasher_of};
ghost use Rattle.indexmap.specs.IndexSet.{hasher_of as set_hasher_of};
ghost use Rattle.keyed_index.specs.Key.{keyed_by};
ghost use Rattle.stream_case.specs.Case.{IsComplete};
ghost use Rattle.networks.specs.Lines.{exchanger_of, exchangers_of, members, passage_of, same_passage, stream_at, uses};
ghost use Rattle.network_text.specs.Given.{branch_named, exchanger_named, first_stream, start, with_entry};
ghost use Rattle.network_text.specs.Checks.{first_missing, is_free_side, is_missed, is_passed, is_used, joins_stream, misses_side};
ghost use Rattle.network_text.specs.Building.{IsFresh, named_branch, named_sides, own_entries};
ghost use Rattle.network_text.specs.Tables.{KeepsKeys};

use crate::entry::Entry;
use crate::names::branch_name;
use indexmap::{IndexMap, IndexSet};
use keyed_index::{KeyedMap, KeyedSet, TextKey};
use networks::{AtMostTwo, Branch, Line, MOST_STATEMENTS, Network, Passage};
use std::alloc::{AllocError, Global};
use std::marker::Model;
use stream_case::{ALL_STREAMS, Case, Items, Name, Source, Stream};

/// The two sources that an exchanger joins.
#[derive(Clone, Copy, PartialEq, Eq)]
pub struct Sides {
    pub hot: Source,
    pub cold: Source,
}

/// The branch with this name and stream.
fn named_branch(name: Name, stream: u32) -> Branch
    ensures { result ≡ named_branch (name, stream) }
{
    Branch { name, stream }
}

/// The branches of a table, as a list.
fn listed(alloc: Global, branches: &KeyedMap<Name, u32>) -> Result<Vec<Branch>, AllocError>
    ensures { IfOk result (λ listed. listed.items ≡ map named_branch branches.now.entries) }
{
    branches
        .iter()
        .map(|(name, stream)| named_branch(*name, *stream))
        .collect(alloc)
}

/// Whether a line declares an exchanger.
fn is_exchanger(line: &Line) -> bool
    ensures { result ≡ is_some (exchanger_of line.now) }
{
    matches!(line, Line::Exchanger { .. })
}

/// Adds a branch to those that are used.
fn mark_used(used: &mut KeyedSet<u32>, number: u32) -> Result<(), AllocError>
    requires { list_any (λ other. number == other) used.old.keys ≡ false }
    ensures added { OnOk result (used.new.keys ≡ used.old.keys ++ number ∷ []) }
    ensures key { set_hasher_of used.new ≡ set_hasher_of used.old }
{
    used.insert(number)?;
    Ok(())
}

/// Adds the branches that a line uses to those that are used. No branch takes no memory.
fn mark_all_used(used: &mut KeyedSet<u32>, numbers: AtMostTwo<u32>) -> Result<(), AllocError>
    requires { AllPairs (λ a b. a ≢ b) (used.old.keys ++ members numbers) }
    ensures added { OnOk result (used.new.keys ≡ used.old.keys ++ members numbers) }
    ensures key { set_hasher_of used.new ≡ set_hasher_of used.old }
    ensures memory { OnErr result (0 < length (members numbers)) }
{
    match numbers {
        AtMostTwo::Nothing => Ok(()),
        AtMostTwo::One(number) => mark_used(used, number),
        AtMostTwo::Two(first, second) => {
            mark_used(used, first)?;
            mark_used(used, second)
        }
    }
}

/// Adds a branch with a new name.
fn add_branch(branches: &mut KeyedMap<Name, u32>, name: Name, stream: u32) -> Result<(), AllocError>
    requires { list_any (bytes_eq name) (keys_of branches.old.entries) ≡ false }
    ensures added { OnOk result
        (branches.new.entries ≡ branches.old.entries ++ (name, stream) ∷ []) }
    ensures key { hasher_of branches.new ≡ hasher_of branches.old }
{
    branches.insert(name, stream)?;
    Ok(())
}

/// Adds branches of a stream with new names. No name takes no memory.
fn add_branches(
    branches: &mut KeyedMap<Name, u32>,
    names: AtMostTwo<Name>,
    stream: u32,
) -> Result<(), AllocError>
    requires { AllPairs (λ a b. a ≢ b) (keys_of branches.old.entries ++ members names) }
    ensures added { OnOk result (branches.new.entries ≡ branches.old.entries ++
        map (λ name. (name, stream)) (members names)) }
    ensures key { hasher_of branches.new ≡ hasher_of branches.old }
    ensures memory { OnErr result (0 < length (members names)) }
{
    match names {
        AtMostTwo::Nothing => Ok(()),
        AtMostTwo::One(name) => add_branch(branches, name, stream),
        AtMostTwo::Two(first, second) => {
            add_branch(branches, first, stream)?;
            add_branch(branches, second, stream)
        }
    }
}

/// The branches of the streams themselves, by name, under this key.
fn own_branches(
    alloc: Global,
    key: TextKey,
    streams: &[Stream],
) -> Result<KeyedMap<Name, u32>, AllocError>
    requires few { length streams.now ≤ ALL_STREAMS }
    requires distinct { AllPairs (λ a b. a ≢ b) (map (λ s. s.name) streams.now) }
    ensures own { IfOk result (λ branches. branches.entries ≡ own_entries streams.now) }
    ensures key { IfOk result (λ branches. hasher_of branches ≡ key) }
{
    let mut branches = IndexMap::with_hasher(alloc, key);
    for (index, stream) in streams.iter().enumerate() {
        add_branch(&mut branches, stream.name, index as u32)?;
    }
    Ok(branches)
}

/// Adds the exchanger that a line declares, if it declares one. Another line takes no memory.
fn add_declared(exchangers: &mut KeyedMap<Name, Sides>, line: &Line) -> Result<(), AllocError>
    requires { AllPairs (λ a b. a ≢ b) (keys_of exchangers.old.entries ++
        map (λ e. e.name) (option_to_list (exchanger_of line.now))) }
    ensures added { OnOk result (exchangers.new.entries ≡ exchangers.old.entries ++
        map named_sides (option_to_list (exchanger_of line.now))) }
    ensures key { hasher_of exchangers.new ≡ hasher_of exchangers.old }
    ensures memory { OnErr result (IsSome (exchanger_of line.now)) }
{
    if let Line::Exchanger {
        name,
        hot,
        cold,
        ..
    } = *line
    {
        exchangers.insert(name, Sides { hot, cold })?;
    }
    Ok(())
}

/// Adds a side of an exchanger to those that are passed.
fn mark_passed(passed: &mut KeyedSet<Passage>, passage: Passage) -> Result<(), AllocError>
    requires { list_any (same_passage passage) passed.old.keys ≡ false }
    ensures added { OnOk result (passed.new.keys ≡ passed.old.keys ++ passage ∷ []) }
    ensures key { set_hasher_of passed.new ≡ set_hasher_of passed.old }
{
    passed.insert(passage)?;
    Ok(())
}

/// Adds the side that a line passes, if it passes one, to those that are passed. A line that passes
/// none takes no memory.
fn mark_any_passed(
    passed: &mut KeyedSet<Passage>,
    passage: Option<Passage>,
) -> Result<(), AllocError>
    requires { ForSome passage (λ p. list_any (same_passage p) passed.old.keys ≡ false) }
    ensures added { OnOk result (passed.new.keys ≡ passed.old.keys ++ option_to_list passage) }
    ensures key { set_hasher_of passed.new ≡ set_hasher_of passed.old }
    ensures memory { OnErr result (IsSome passage) }
{
    match passage {
        None => Ok(()),
        Some(passage) => mark_passed(passed, passage),
    }
}

/// Tables to look things up in what the statements read so far give.
#[derive(Drop)]
struct Tables {
    /// The streams of the branches, by name, in the order of their numbers.
    branches: KeyedMap<Name, u32>,
    /// The branches that are used.
    used: KeyedSet<u32>,
    /// The exchangers, by name, in the order of their numbers.
    exchangers: KeyedMap<Name, Sides>,
    /// The sides of exchangers that are passed.
    passed: KeyedSet<Passage>,
}

impl Tables {
    /// Adds what an entry uses and declares, the side that it passes, and its branches of this
    /// stream; a part of that where memory is wanted.
    fn add(
        &mut self,
        entry: &Entry,
        stream: u32,
        passage: Option<Passage>,
    ) -> Result<(), AllocError>
        requires used { AllPairs (λ a b. a ≢ b) (self.old.used.keys ++ uses entry.now.line) }
        requires exchangers { AllPairs (λ a b. a ≢ b) (keys_of self.old.exchangers.entries ++
            map (λ e. e.name) (option_to_list (exchanger_of entry.now.line))) }
        requires passed { ForSome passage (λ p.
            list_any (same_passage p) self.old.passed.keys ≡ false) }
        requires branches { AllPairs (λ a b. a ≢ b) (keys_of self.old.branches.entries ++
            members entry.now.names) }
        ensures used { OnOk result (self.new.used.keys ≡ self.old.used.keys ++
            uses entry.now.line) }
        ensures exchangers { OnOk result (self.new.exchangers.entries ≡
            self.old.exchangers.entries ++
            map named_sides (option_to_list (exchanger_of entry.now.line))) }
        ensures passed { OnOk result (self.new.passed.keys ≡ self.old.passed.keys ++
            option_to_list passage) }
        ensures branches { OnOk result (self.new.branches.entries ≡ self.old.branches.entries ++
            map (λ name. (name, stream)) (members entry.now.names)) }
        ensures keys { OnOk result (KeepsKeys self.old self.new) }
    {
        mark_all_used(&mut self.used, entry.line.uses())?;
        add_declared(&mut self.exchangers, &entry.line)?;
        mark_any_passed(&mut self.passed, passage)?;
        add_branches(&mut self.branches, entry.names, stream)
    }
}

/// The network that the statements read so far give.
#[derive(Drop)]
pub struct Given {
    tables: Tables,
    lines: Vec<Line>,
}

impl Model for Given {
    ghost use Rattle.std.specs.Prelude.{map};
    ghost use Rattle.indexmap.specs.IndexMap.{hasher_of};
    ghost use Rattle.keyed_index.specs.Key.{begun_by};
    ghost use Rattle.network_text.specs.Building.{IsTracked, KeyedNetwork, named_branch};
    ghost use Rattle.network_text.specs.Tables.{ShareKey};

    ghost Value = { KeyedNetwork };

    ghost view = { λ b. record {
      network = record {
        branches = map named_branch b.tables.branches.entries;
        lines = b.lines.items;
      };
      key = begun_by (hasher_of b.tables.branches);
    } };

    ghost invariant = { λ b. IsTracked b.tables.branches.entries b.tables.used.keys
        b.tables.exchangers.entries b.tables.passed.keys b.lines.items
        × ShareKey b.tables };
}

impl Given {
    /// What no statement gives: the streams' own branches. The hashes of the tables have the key of
    /// this text.
    pub fn new(alloc: Global, text: &[u8], case: &Case) -> Result<Given, AllocError>
        requires { IsComplete case.now }
        ensures start { IfOk result (λ given. given.network ≡ start case.now) }
        ensures key { IfOk result (λ given. given.key ≡ keyed_by text.now) }
    {
        let key = TextKey::of_text(text);
        let tables = Tables {
            branches: own_branches(alloc, key, case.streams.as_slice())?,
            used: IndexSet::with_hasher(alloc, key),
            exchangers: IndexMap::with_hasher(alloc, key),
            passed: IndexSet::with_hasher(alloc, key),
        };
        Ok(Given {
            tables,
            lines: Vec::new(alloc),
        })
    }

    /// How many statements there were.
    pub fn count_lines(&self) -> usize
        ensures { result ≡ length self.now.network.lines }
    {
        self.lines.len()
    }

    /// How many branches there are.
    pub fn count_branches(&self) -> u32
        ensures count { result ≡ length self.now.network.branches }
        ensures small { result ≤ ALL_STREAMS + 2 * MOST_STATEMENTS }
    {
        self.tables.branches.len() as u32
    }

    /// How many exchangers are declared.
    pub fn count_exchangers(&self) -> usize
        ensures { result ≡ length (exchangers_of self.now.network.lines) }
    {
        self.tables.exchangers.len()
    }

    /// The number of the branch with this name.
    pub fn branch_named(&self, name: &[u8]) -> Option<u32>
        ensures { result ≡ branch_named self.now.network name.now }
    {
        let branches = &self.tables.branches;
        let Some(name) = branch_name(name) else {
            return None;
        };
        let Some(number) = branches.get_index_of(&name) else {
            return None;
        };
        Some(number as u32)
    }

    /// The number of the exchanger with this name.
    pub fn exchanger_named(&self, name: &[u8]) -> Option<u32>
        ensures { result ≡ exchanger_named self.now.network name.now }
    {
        let exchangers = &self.tables.exchangers;
        let Some(name) = branch_name(name) else {
            return None;
        };
        let Some(number) = exchangers.get_index_of(&name) else {
            return None;
        };
        Some(number as u32)
    }

    /// Whether an earlier statement used the branch with this number.
    pub fn is_used(&self, number: u32) -> bool
        ensures { result ≡ is_used self.now.network number }
    {
        self.tables.used.contains(&number)
    }

    /// The stream of the branch with this number.
    pub fn stream_of(&self, number: u32) -> u32
        ensures { result ≡ stream_at self.now.network.branches number }
    {
        match self.tables.branches.get_index(number as usize) {
            Some((_, stream)) => *stream,
            None => 0,
        }
    }

    /// The stream of the first of some branches.
    fn first_stream(&self, numbers: AtMostTwo<u32>) -> u32
        ensures { result ≡ first_stream self.now.network.branches (members numbers) }
    {
        match numbers {
            AtMostTwo::Nothing => 0,
            AtMostTwo::One(number) => self.stream_of(number),
            AtMostTwo::Two(number, _) => self.stream_of(number),
        }
    }

    /// The side of an exchanger that a line passes, if it passes one.
    fn passage_of(&self, line: &Line) -> Option<Passage>
        ensures { result ≡ passage_of self.now.network.branches line.now }
    {
        let Line::Pass {
            from,
            exchanger,
            ..
        } = *line
        else {
            return None;
        };
        Some(Passage {
            exchanger,
            stream: self.stream_of(from),
        })
    }

    /// Whether the exchanger with this number has a side of the stream.
    #[tactic(auto, unfolding(crate::specs::Checks::joins_stream))]
    fn joins_stream(&self, exchanger: u32, stream: u32) -> bool
        ensures { result ≡ joins_stream self.now.network exchanger stream }
    {
        match self.tables.exchangers.get_index(exchanger as usize) {
            Some((_, sides)) => sides.hot.is_stream(stream) || sides.cold.is_stream(stream),
            None => false,
        }
    }

    /// Whether an earlier statement passed the exchanger with this number on the side of the
    /// stream.
    #[tactic(auto, unfolding(crate::specs::Checks::is_passed))]
    fn is_passed(&self, exchanger: u32, stream: u32) -> bool
        ensures { result ≡ is_passed self.now.network exchanger stream }
    {
        self.tables.passed.contains(&Passage { exchanger, stream })
    }

    /// Whether the exchanger with this number has a side of the stream, and no earlier statement
    /// passed it.
    pub fn is_free_side(&self, exchanger: u32, stream: u32) -> bool
        ensures { result ≡ is_free_side self.now.network exchanger stream }
    {
        if !self.joins_stream(exchanger, stream) {
            return false;
        }
        !self.is_passed(exchanger, stream)
    }

    /// What there is with one statement more, which gives this entry.
    pub fn with(self, entry: Entry) -> Result<Given, AllocError>
        requires room { length self.network.lines < MOST_STATEMENTS }
        requires fresh { IsFresh self.network entry }
        ensures { IfOk result (λ given.
            given ≡ record self { network = with_entry self.network entry }) }
    {
        let stream = self.first_stream(entry.line.uses());
        let passage = self.passage_of(&entry.line);
        let mut given = self;
        given.tables.add(&entry, stream, passage)?;
        given.lines.push(entry.line)?;
        Ok(given)
    }

    /// Whether a source is a stream, and no statement passes the exchanger on its side.
    fn is_missed(&self, exchanger: u32, source: Source) -> bool
        ensures { result ≡ is_missed self.now.network exchanger source }
    {
        match source {
            Source::Stream(stream) => !self.is_passed(exchanger, stream),
            Source::Utility(_) => false,
        }
    }

    /// Whether a line declares an exchanger, the one with this number, that has a side which no
    /// statement passes.
    fn misses_side(&self, exchanger: u32, line: &Line) -> bool
        ensures { result ≡ misses_side self.now.network exchanger (exchanger_of line.now) }
    {
        let Line::Exchanger { hot, cold, .. } = line else {
            return false;
        };
        if self.is_missed(exchanger, *hot) {
            return true;
        }
        self.is_missed(exchanger, *cold)
    }

    /// The index, among the lines, of the first exchanger with a side that no statement passes.
    pub fn first_missing(&self) -> Option<u32>
        ensures index { result ≡ first_missing self.now.network }
        ensures small { IfSome result (λ index. index < MOST_STATEMENTS) }
    {
        let mut exchanger = 0;
        for (index, line) in self.lines.iter().enumerate() {
            if self.misses_side(exchanger, line) {
                return Some(index as u32);
            }
            if is_exchanger(line) {
                exchanger += 1;
            }
        }
        None
    }

    /// The network.
    pub fn into_network(self, alloc: Global) -> Result<Network, AllocError>
        ensures { IfOk result (λ network. network ≡ self.network) }
    {
        let branches = listed(alloc, &self.tables.branches)?;
        Ok(Network {
            branches: Items::from_vec(branches),
            lines: Items::from_vec(self.lines),
        })
    }
}
