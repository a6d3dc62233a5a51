//! The facts on one exchanger and on one mix.

ghost use Rattle.network_values.specs.Courses.{PassesTakeShares, SharesRise};
ghost use Rattle.network_values.specs.Heights.{HotSharesAreAtLeastColdShares, PricedSharesAreOrdered, SharesAreParts};
ghost use Rattle.network_values.specs.Mixes.{MixesLoseHeight};
ghost use Rattle.network_values.specs.OneScale.{ExchangersRunOnOneScale};

/// Along an exchanger whose hot side is at neither end below its cold side, the hot side has at
/// least as much of the duty above any place as the cold side. A side runs between two temperatures
/// or stays at one level.
pub fn hot_shares_are_at_least_cold_shares()
    ensures { HotSharesAreAtLeastColdShares }
{}

/// The same with prices that rise at some places: shares times rises add up to no less on the hot
/// side.
pub fn priced_shares_are_ordered()
    ensures { PricedSharesAreOrdered }
{}

/// The share of a side above a place is the duty where the side lies above it, nothing where it
/// lies below, and by the part of its range that is above where it crosses the place. A level at
/// the place has all of the duty where the place counts from itself, else nothing.
pub fn shares_are_parts()
    ensures { SharesAreParts }
{}

/// From a lower place a share is no less, and where the place counts from itself no less than
/// where it counts above itself.
pub fn shares_rise()
    ensures { SharesRise }
{}

/// Mixing raises no sum of sizes times the positive parts of the distances from a base.
pub fn mixes_lose_height()
    ensures { MixesLoseHeight }
{}

/// The height that a pass takes of its branch, on the course of its stream, is its share of the
/// duty; heights are additive in the size, and no mix raises them.
pub fn passes_take_shares()
    ensures { PassesTakeShares }
{}

/// On the shifted scale both sides of an exchanger of a network have its duty. Where its approach is
/// kept, the hot side is at neither end below the cold one. In each view the height that a stream
/// loses or gains at the exchanger is its side's share of the duty.
pub fn exchangers_run_on_one_scale()
    ensures { ExchangersRunOnOneScale }
{}
