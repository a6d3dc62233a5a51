//! The names of the sources of a case or of a site.
ghost use Rattle.std.specs.Prelude.{◌≡◌, ◌++◌, ◌<◌, [], length, slice_index_or, IfOk, OnErr, OnOk};
ghost use Rattle.reports.specs.Names.{case_names, site_names, source_name, stream_names};

use site::Site;
use std::alloc::{AllocError, Global};
use stream_case::{Case, Items, Name, Source, Stream};

/// The names of streams and of utilities, by their indexes.
#[derive(Debug, Drop)]
pub struct SourceNames {
    pub streams: Items<Name>,
    pub utilities: Items<Name>,
}

impl SourceNames {
    /// The name of a source; nothing where there is no such source.
    pub fn source_name(&self, source: Source) -> &str
        ensures { result.now ≡ source_name self.now source }
    {
        match source {
            Source::Stream(index) => name_at(self.streams.as_slice(), index),
            Source::Utility(index) => name_at(self.utilities.as_slice(), index),
        }
    }
}

/// The name at an index of a list; nothing past its end.
pub fn name_at(names: &[Name], index: u32) -> &str
    ensures { result.now ≡ slice_index_or names.now index [] }
{
    match names.get(index as usize) {
        Some(name) => name.as_str(),
        None => "",
    }
}

/// Appends the names of streams, which take memory where there are any.
fn push_names(names: &mut Items<Name>, streams: &[Stream]) -> Result<(), AllocError>
    ensures names { OnOk result (names.new ≡ names.old ++ stream_names streams.now) }
    ensures memory { OnErr result (0 < length streams.now) }
{
    for stream in streams {
        names.push(stream.name)?;
    }
    Ok(())
}

/// The names of the sources of a case.
pub fn case_names(alloc: Global, case: &Case) -> Result<SourceNames, AllocError>
    ensures { IfOk result (λ names. names ≡ case_names case.now) }
{
    let mut streams = Items::new(alloc);
    push_names(&mut streams, case.streams.as_slice())?;
    let mut utilities = Items::new(alloc);
    for utility in case.utilities.as_slice() {
        utilities.push(utility.name)?;
    }
    Ok(SourceNames { streams, utilities })
}

/// The names of the sources of a site: its streams, through the plants in their order, the boiler
/// and the cooling.
pub fn site_names(alloc: Global, site: &Site) -> Result<SourceNames, AllocError>
    ensures { IfOk result (λ names. names ≡ site_names site.now) }
{
    let mut streams = Items::new(alloc);
    for plant in site.plants.as_slice() {
        push_names(&mut streams, plant.streams.as_slice())?;
    }
    let mut utilities = Items::new(alloc);
    utilities.push(Name::new(b"BOILER").unwrap())?;
    utilities.push(Name::new(b"COOLING").unwrap())?;
    Ok(SourceNames { streams, utilities })
}
