//! Reading a site file.

ghost use Rattle.std.specs.Prelude.{◌≡◌, ◌≤◌, length, ⊤, IfOk};
ghost use Rattle.csv.specs.Records.{fields_of};
ghost use Rattle.rows.specs.Rows.{rows_of};
ghost use Rattle.first_fault.specs.Checks.{Checked};
ghost use Rattle.site_text.specs.Site.{IsValidSite};
ghost use Rattle.site_text.specs.Given.{entry_in, nothing};
ghost use Rattle.site_text.specs.Checks.{checks};
ghost use Rattle.site_text.specs.Additions.{IsFresh};
ghost use Rattle.site_text.specs.Outcome.{IsOutcome, grammar};

use crate::contribution_row::contribution_entry;
use crate::entry::Entry;
use crate::fault::{SiteFault, SiteWhy};
use crate::given::Given;
use crate::kind::{Kind, kind_of};
use crate::main_row::main_entry;
use crate::plant_row::plant_entry;
use crate::site::Site;
use crate::stream_row::stream_entry;
use csv::ByteRecord;
use rows::{Collector, Rows, read_rows};
use std::alloc::{AllocError, Global};

/// What a row gives, or the first of its checks that fails.
#[tactic(auto, unfolding(crate::specs::Checks::checks, crate::specs::Checks::kind_checks))]
fn entry_of(given: &Given, row: &ByteRecord) -> Result<Entry, SiteWhy>
    ensures fresh { IfOk result (IsFresh given.now) }
    ensures checked { Checked (checks given.now (fields_of row.now))
        (λ e. e ≡ entry_in (fields_of row.now)) result }
{
    if row.len() != 7 {
        return Err(SiteWhy::FieldCount);
    }
    match kind_of(row) {
        None => Err(SiteWhy::UnknownKind),
        Some(Kind::PassedOver) => Ok(Entry::Nothing),
        Some(Kind::Contribution) => contribution_entry(given, row),
        Some(Kind::Stream(side)) => stream_entry(given, side, row),
        Some(Kind::Plant) => plant_entry(given, row),
        Some(Kind::Main) => main_entry(given, row),
    }
}

impl Collector for Given {
    type Why = SiteWhy;

    type Given = Given;

    type Value = Site;

    ghost is_sound = { λ _. ⊤ };

    ghost grammar = { λ _. grammar };

    ghost given = { λ given. given };

    fn take_row(&mut self, row: &ByteRecord) -> Result<Option<SiteWhy>, AllocError> {
        match entry_of(self, row) {
            Ok(entry) => self.add(entry)?,
            Err(why) => return Ok(Some(why)),
        }
        Ok(None)
    }
}

/// The site of rows, or the first row at fault with its cause; `given` takes what they give.
fn site_of(alloc: Global, rows: &mut Rows<'_>, given: &mut Given) -> Result<Site, SiteFault>
    requires few { length rows.old ≤ 2000000000 }
    requires none { given.old ≡ nothing }
    ensures { IsOutcome rows.old result }
{
    let number = read_rows(alloc, rows, given)?;
    match given.contribution() {
        Ok(contribution) => Ok(given.site(alloc, contribution)?),
        Err(why) => Err(SiteFault::Row {
            row: number + 1,
            why,
        }),
    }
}

/// Reads a site file: the site of the grammar, or the first row at fault with its cause.
#[tactic(auto, using(crate::proofs::Accepted::outcome_is_valid))]
pub fn read_site(alloc: Global, bytes: &[u8]) -> Result<Site, SiteFault>
    requires { length bytes.now ≤ 2000000000 }
    ensures outcome { IsOutcome (rows_of bytes.now) result }
    ensures valid { IfOk result IsValidSite }
{
    let mut rows = Rows::new(alloc, bytes);
    site_of(alloc, &mut rows, &mut Given::new(alloc))
}
