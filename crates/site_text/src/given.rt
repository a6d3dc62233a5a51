//! What the rows that were read gave.

ghost use Rattle.std.specs.Prelude.{◌≡◌, ◌==◌, Some, length, map, not, is_some, IfOk, OnErr, OnOk};
ghost use Rattle.std.specs.List.{list_any};
ghost use Rattle.first_fault.specs.Checks.{Checked};
ghost use Rattle.stream_case.specs.Stream.{count_on, stream_with};
ghost use Rattle.site_text.specs.Site.{streams_of};
ghost use Rattle.site_text.specs.Additions.{HaveFewStreams, IsFresh, TakesMemory};
ghost use Rattle.site_text.specs.Checks.{end_checks, is_among, is_main, is_plant, is_stream};
ghost use Rattle.site_text.specs.Given.{nothing, plant_with, site_with, with_entry};

use crate::entry::Entry;
use crate::fault::SiteWhy;
use crate::site::{Main, Plant, Site};
use std::alloc::{AllocError, Global};
use std::marker::Model;
use stream_case::{Items, Name, Side, Stream, count_on};

/// What the rows read so far gave.
#[derive(Drop)]
pub struct Given {
    contribution: Option<i32>,
    plants: Vec<Plant>,
    mains: Vec<Main>,
}

impl Model for Given {
    ghost use Rattle.site_text.specs.Additions.{HaveFewStreams};
    ghost use Rattle.site_text.specs.Given.{Given as GivenByRows};

    ghost Value = { GivenByRows };

    ghost view = { λ f. record { contribution = f.contribution; plants = f.plants.items; mains = f.mains.items } };

    ghost invariant = { λ f. HaveFewStreams f.plants.items };
}

/// How many streams of these plants are on a side.
fn count_streams(side: Side, plants: &[Plant]) -> usize
    requires { HaveFewStreams plants.now }
    ensures { result ≡ count_on side (streams_of plants.now) }
{
    let mut count = 0;
    for plant in plants {
        count += count_on(side, plant.streams.as_slice());
    }
    count
}

/// Whether one of these streams has this name.
#[tactic(auto, unfolding(crate::specs::Checks::is_among))]
fn is_name_of(streams: &[Stream], name: &Name) -> bool
    ensures { result ≡ is_among (λ s. s.name) streams.now name.now }
{
    streams.iter().any(|stream| *name == stream.name)
}

/// Whether a plant has a stream with this name.
fn is_name_within(plants: &[Plant], name: &Name) -> bool
    ensures { result ≡ list_any
        (λ plant. is_among (λ s. s.name) plant.streams name.now) plants.now }
{
    plants
        .iter()
        .any(|plant| is_name_of(plant.streams.as_slice(), name))
}

/// Whether a plant has a stream.
fn have_streams(plants: &[Plant]) -> bool
    ensures { result ≡ list_any (λ plant. not (length plant.streams == 0)) plants.now }
{
    plants.iter().any(|plant| plant.streams.len() != 0)
}

/// The streams, with this contribution in each.
fn streams_with(
    alloc: Global,
    contribution: i32,
    streams: &[Stream],
) -> Result<Vec<Stream>, AllocError>
    ensures { IfOk result (λ made. made.items ≡ map (stream_with contribution) streams.now) }
{
    streams
        .iter()
        .map(|stream| stream.with_contribution(contribution))
        .collect(alloc)
}

/// The plant, with this contribution in each of its streams.
fn plant_with(alloc: Global, contribution: i32, plant: &Plant) -> Result<Plant, AllocError>
    ensures { IfOk result (λ made. made ≡ plant_with contribution plant.now) }
{
    let streams = streams_with(alloc, contribution, plant.streams.as_slice())?;
    Ok(Plant {
        name: plant.name,
        streams: Items::from_vec(streams),
    })
}

impl Given {
    pub fn new(alloc: Global) -> Given
        ensures { result ≡ nothing }
    {
        Given {
            contribution: None,
            plants: Vec::new(alloc),
            mains: Vec::new(alloc),
        }
    }

    /// Whether an earlier row gave a contribution.
    pub fn has_contribution(&self) -> bool
        ensures { result ≡ is_some self.now.contribution }
    {
        self.contribution.is_some()
    }

    /// How many plants there are.
    pub fn count_plants(&self) -> usize
        ensures { result ≡ length self.now.plants }
    {
        self.plants.len()
    }

    /// Whether there are plants.
    pub fn has_plants(&self) -> bool
        ensures { result ≡ not (length self.now.plants == 0) }
    {
        !self.plants.is_empty()
    }

    /// How many mains there are.
    pub fn count_mains(&self) -> usize
        ensures { result ≡ length self.now.mains }
    {
        self.mains.len()
    }

    /// How many streams a side has.
    pub fn count_streams(&self, side: Side) -> usize
        ensures { result ≡ count_on side (streams_of self.now.plants) }
    {
        count_streams(side, self.plants.as_slice())
    }

    /// Whether an earlier plant has this name.
    #[tactic(auto, unfolding(crate::specs::Checks::is_among))]
    pub fn has_plant(&self, name: &Name) -> bool
        ensures { result ≡ is_plant self.now name.now }
    {
        self.plants.iter().any(|plant| *name == plant.name)
    }

    /// Whether an earlier main has this name.
    #[tactic(auto, unfolding(crate::specs::Checks::is_among))]
    pub fn has_main(&self, name: &Name) -> bool
        ensures { result ≡ is_main self.now name.now }
    {
        self.mains.iter().any(|main| *name == main.name)
    }

    /// Whether an earlier stream has this name, of whichever plant.
    pub fn has_stream(&self, name: &Name) -> bool
        ensures { result ≡ is_stream self.now name.now }
    {
        is_name_within(self.plants.as_slice(), name)
    }

    /// Whether a plant has a stream.
    fn has_streams(&self) -> bool
        ensures { result ≡ not (length (streams_of self.now.plants) == 0) }
    {
        have_streams(self.plants.as_slice())
    }

    /// Takes what a row gave. A row that is passed over takes no memory, nor does a contribution.
    pub fn add(&mut self, entry: Entry) -> Result<(), AllocError>
        requires { IsFresh self.old entry }
        ensures added { OnOk result (self.new ≡ with_entry self.old entry) }
        ensures memory { OnErr result (TakesMemory entry) }
    {
        match entry {
            Entry::Nothing => {}
            Entry::Contribution(contribution) => self.contribution = Some(contribution),
            Entry::Plant(name) => self.add_plant(name)?,
            Entry::Main(main) => self.mains.push(main)?,
            Entry::Stream(stream) => self.add_stream(stream)?,
        }
        Ok(())
    }

    /// Takes a plant, without streams so far.
    fn add_plant(&mut self, name: Name) -> Result<(), AllocError>
        ensures { OnOk result (self.new ≡ with_entry self.old (Entry.Plant name)) }
    {
        let alloc = *self.plants.allocator();
        let streams = Items::new(alloc);
        self.plants.push(Plant { name, streams })?;
        Ok(())
    }

    /// Takes a stream of the last plant.
    fn add_stream(&mut self, stream: Stream) -> Result<(), AllocError>
        requires { IsFresh self.old (Entry.Stream stream) }
        ensures { OnOk result (self.new ≡ with_entry self.old (Entry.Stream stream)) }
    {
        if let Some(plant) = self.plants.last_mut() {
            plant.streams.push(stream)?;
        }
        Ok(())
    }

    /// The contribution of a whole file, or what the file lacks.
    #[tactic(auto, unfolding(crate::specs::Checks::end_checks))]
    pub fn contribution(&self) -> Result<i32, SiteWhy>
        ensures { Checked (end_checks self.now) (λ c. self.now.contribution ≡ Some c) result }
    {
        let contribution = self.contribution.ok_or(SiteWhy::NoContribution)?;
        if self.mains.is_empty() {
            return Err(SiteWhy::NoMain);
        }
        if !self.has_streams() {
            return Err(SiteWhy::NoStream);
        }
        Ok(contribution)
    }

    /// The site, with this contribution in each stream.
    pub fn site(&self, alloc: Global, contribution: i32) -> Result<Site, AllocError>
        ensures { IfOk result (λ site. site ≡ site_with contribution self.now) }
    {
        let given = self.plants.as_slice();
        let mut plants = Vec::new(alloc);
        for plant in given {
            plants.push(plant_with(alloc, contribution, plant)?)?;
        }
        Ok(Site {
            contribution,
            plants: Items::from_vec(plants),
            mains: Items::from_vec(Vec::from_slice(alloc, self.mains.as_slice())?),
        })
    }
}
