//! What a row of a study file says.

ghost use Rattle.std.specs.Prelude.{◌≡◌};
ghost use Rattle.study_text.specs.Given.{is_item, is_price_of, is_scenario, is_scenario_named};

use stream_case::Name;

/// What a row says.
#[derive(Clone, Copy)]
pub(crate) enum Entry {
    /// Here a scenario begins.
    Scenario(Name),
    /// The price of a utility, by its index, in the last scenario above.
    Price { utility: u32, price: i64 },
    /// A span of prices of a utility, by its index.
    Span { utility: u32, from: i64, to: i64 },
}

impl Entry {
    /// Whether it is a scenario or a span.
    pub(crate) fn is_item(&self) -> bool
        ensures { result ≡ is_item self.now }
    {
        !matches!(self, Entry::Price { .. })
    }

    pub(crate) fn is_scenario(&self) -> bool
        ensures { result ≡ is_scenario self.now }
    {
        matches!(self, Entry::Scenario(_))
    }

    /// Whether it is a scenario of this name.
    pub(crate) fn is_scenario_named(&self, name: &Name) -> bool
        ensures { result ≡ is_scenario_named name.now self.now }
    {
        match self {
            Entry::Scenario(own) => name == own,
            Entry::Price { .. } | Entry::Span { .. } => false,
        }
    }

    /// Whether it is a price of the utility of this index.
    pub(crate) fn is_price_of(&self, index: u32) -> bool
        ensures { result ≡ is_price_of index self.now }
    {
        match self {
            Entry::Price { utility, .. } => *utility == index,
            Entry::Scenario(_) | Entry::Span { .. } => false,
        }
    }
}
