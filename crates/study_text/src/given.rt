//! What the rows of a study file say, and the study that is made of it.

ghost use Rattle.std.specs.Prelude.{◌≡◌, [], ◌∷◌, ◌++◌, All, IfOk, OnOk, ◌==◌};
ghost use Rattle.std.specs.List.{list_any};
ghost use Rattle.first_fault.specs.Checks.{first_failing};
ghost use Rattle.study_text.specs.Study.{case_prices};
ghost use Rattle.study_text.specs.Entries.{IsKnown};
ghost use Rattle.study_text.specs.Checks.{end_checks};
ghost use Rattle.study_text.specs.Given.{count_items, has_scenario, is_price_of, is_priced, is_scenario_named, prices_by, study_of};

use crate::entry::Entry;
use crate::fault::StudyWhy;
use crate::study::{Study, StudyItem, case_prices};
use std::alloc::{AllocError, Global};
use std::marker::Model;
use stream_case::{Case, Items, Name};

/// What the rows read so far say, in their order.
#[derive(Drop)]
pub(crate) struct Given {
    entries: Vec<Entry>,
    /// Where the entries behind the last scenario begin.
    own: usize,
}

impl Model for Given {
    ghost use Rattle.std.specs.Prelude.{List};
    ghost use Rattle.study_text.specs.Entries.{IsOwn};
    ghost use Rattle.study_text.specs.declared.entry.Entry.{Entry};

    ghost Value = { List Entry };

    ghost view = { λ s. s.entries.items };

    ghost invariant = { λ s. IsOwn s.own s.entries.items };
}

/// The prices of a scenario, behind whose row these entries stand: those of the case but for its
/// own.
fn scenario_prices(alloc: Global, case: &Case, behind: &[Entry]) -> Result<Items<i64>, AllocError>
    requires { All (IsKnown case.now) behind.now }
    ensures { IfOk result (λ prices. prices ≡ prices_by (case_prices case.now) behind.now) }
{
    let mut prices = case_prices(alloc, case)?;
    for entry in behind {
        match *entry {
            Entry::Scenario(_) => break,
            Entry::Price { utility, price } => prices[utility as usize] = price,
            Entry::Span { .. } => {}
        }
    }
    Ok(Items::from_vec(prices))
}

/// Whether one of these entries is a price of the utility of this index.
fn have_price(entries: &[Entry], utility: u32) -> bool
    ensures { result ≡ list_any (is_price_of utility) entries.now }
{
    entries.iter().any(|entry| entry.is_price_of(utility))
}

impl Given {
    pub(crate) fn new(alloc: Global) -> Given
        ensures { result ≡ [] }
    {
        Given {
            entries: Vec::new(alloc),
            own: 0,
        }
    }

    /// How many scenarios and spans there are.
    pub(crate) fn count_items(&self) -> usize
        ensures { result ≡ count_items self.now }
    {
        self.entries.iter().filter(|entry| entry.is_item()).count()
    }

    /// Whether there is a scenario.
    pub(crate) fn has_scenario(&self) -> bool
        ensures { result ≡ has_scenario self.now }
    {
        self.entries.iter().any(|entry| entry.is_scenario())
    }

    /// Whether there is a scenario of this name.
    pub(crate) fn has_scenario_named(&self, name: &Name) -> bool
        ensures { result ≡ list_any (is_scenario_named name.now) self.now }
    {
        self.entries
            .iter()
            .any(|entry| entry.is_scenario_named(name))
    }

    /// Whether the last scenario has a price of the utility of this index.
    pub(crate) fn is_priced(&self, utility: u32) -> bool
        ensures { result ≡ is_priced utility self.now }
    {
        have_price(&self.entries[self.own..], utility)
    }

    /// What a whole file lacks, if it lacks something.
    #[tactic(auto, unfolding(crate::specs::Checks::end_checks))]
    pub(crate) fn missing(&self) -> Option<StudyWhy>
        ensures { result ≡ first_failing (end_checks self.now) }
    {
        if self.count_items() == 0 {
            Some(StudyWhy::NoItem)
        } else {
            None
        }
    }

    /// Takes what a row says.
    pub(crate) fn push(&mut self, entry: Entry) -> Result<(), AllocError>
        ensures { OnOk result (self.new ≡ self.old ++ entry ∷ []) }
    {
        self.entries.push(entry)?;
        if entry.is_scenario() {
            self.own = self.entries.len();
        }
        Ok(())
    }

    /// The study of a whole file.
    pub(crate) fn study(&self, alloc: Global, case: &Case) -> Result<Study, AllocError>
        requires { All (IsKnown case.now) self.now }
        ensures { IfOk result (λ study. study ≡ study_of case.now self.now) }
    {
        let mut items = Items::new(alloc);
        let mut left = self.entries.as_slice();
        while let Some((entry, behind)) = left.split_first() {
            match *entry {
                Entry::Scenario(name) => {
                    let prices = scenario_prices(alloc, case, behind)?;
                    items.push(StudyItem::Scenario { name, prices })?;
                }
                Entry::Price { .. } => {}
                Entry::Span { utility, from, to } => {
                    items.push(StudyItem::Span { utility, from, to })?;
                }
            }
            left = behind;
        }
        Ok(Study { items })
    }
}
