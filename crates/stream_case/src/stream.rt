//! Process streams, and shifted temperatures.
ghost use Rattle.std.specs.Prelude.{◌≡◌, ◌↔◌, ◌≤ℤ◌, ◌-ℤ◌, ◌*ℤ◌, pos, false, All, Any, IsTrue};
ghost use Rattle.stream_case.specs.declared.limits.TheConstants.{MOST_CP};
ghost use Rattle.stream_case.specs.Limits.{IsBetween, IsLength, IsSensibleHeat, IsShifted, IsStreamHeat};
ghost use Rattle.stream_case.specs.Shift.{shifted};
ghost use Rattle.stream_case.specs.Stream.{counts_above, count_on, has_level_at, AreSensible, IsLatent, IsValidStream};

use crate::name::Name;
use crate::source::Side;

/// A process stream: a hot one gives heat, a cold one takes it. A sensible one falls (hot) or
/// rises (cold) from its supply to its target; a latent one condenses (hot) or evaporates (cold)
/// at its one temperature, where supply and target are equal.
#[derive(Clone, Copy, Debug, PartialEq, Eq, Hash)]
pub struct Stream {
    pub name: Name,
    pub side: Side,
    /// Where the stream comes from, in tenths of °C.
    pub supply: i32,
    /// Where the stream has to go, in tenths of °C.
    pub target: i32,
    /// The heat-capacity flow, in 10 W/K; 0 for a latent stream.
    pub cp: i64,
    /// The heat of a latent stream, in W; 0 for a sensible one.
    pub load: i64,
    /// The stream's share of the least approach, in tenths of °C.
    pub contribution: i32,
}

impl Stream {
    ghost use Rattle.stream_case.specs.Source.{same_side};
    ghost use Rattle.stream_case.specs.Stream.{sensible_stream, stream_with, lower_temperature, higher_temperature, high_end, low_end, heat_between, sensible_above, load_over, heat_over, heat_above, heat_from, is_latent, is_level_at, IsLatent, IsValidStream};

    /// A stream of sensible heat: it has no load.
    pub fn sensible(
        name: Name,
        side: Side,
        supply: i32,
        target: i32,
        cp: i64,
        contribution: i32,
    ) -> Stream
        ensures { result ≡ sensible_stream name side supply target cp contribution }
    {
        Stream {
            name,
            side,
            supply,
            target,
            cp,
            load: 0,
            contribution,
        }
    }

    /// The stream with this contribution, in tenths of °C.
    pub fn with_contribution(&self, contribution: i32) -> Stream
        ensures { result ≡ stream_with contribution self.now }
    {
        Stream {
            contribution,
            ..*self
        }
    }

    /// Whether the stream is on this side.
    pub fn is_on(&self, side: Side) -> bool
        ensures { result ≡ same_side self.now.side side }
    {
        self.side == side
    }

    /// The lower end of the actual range, in tenths of °C.
    pub fn lower_temperature(&self) -> i32
        ensures { result ≡ lower_temperature self.now }
    {
        match self.side {
            Side::Hot => self.target,
            Side::Cold => self.supply,
        }
    }

    /// The higher end of the actual range, in tenths of °C.
    pub fn higher_temperature(&self) -> i32
        ensures { result ≡ higher_temperature self.now }
    {
        match self.side {
            Side::Hot => self.supply,
            Side::Cold => self.target,
        }
    }

    /// The high end of the shifted range, in tenths of °C.
    pub fn high_end(&self) -> i32
        requires { IsValidStream self.now }
        ensures value { result ≡ high_end self.now }
        ensures range { IsShifted result }
    {
        shifted(self.side, self.higher_temperature(), self.contribution)
    }

    /// The low end of the shifted range, in tenths of °C.
    pub fn low_end(&self) -> i32
        requires { IsValidStream self.now }
        ensures value { result ≡ low_end self.now }
        ensures range { IsShifted result }
    {
        shifted(self.side, self.lower_temperature(), self.contribution)
    }

    /// Whether the stream condenses or evaporates at one temperature.
    pub fn is_latent(&self) -> bool
        ensures value { result ≡ is_latent self.now }
        ensures latent { IsValidStream self.now → (IsTrue result ↔ IsLatent self.now) }
    {
        self.load > 0
    }

    /// Whether the stream is latent and has the shifted level `t`, in tenths of °C.
    pub fn is_level_at(&self, t: i32) -> bool
        requires { IsValidStream self.now }
        ensures { result ≡ is_level_at t self.now }
    {
        self.is_latent() && self.high_end() == t
    }

    /// The sensible heat in watts that the stream gives or takes between two temperatures of its
    /// range, in tenths of °C, both actual or both shifted.
    pub fn heat_between(&self, high: i32, low: i32) -> i64
        requires valid { IsValidStream self.now }
        requires within { IsLength (high -ℤ low) }
        ensures value { result ≡ heat_between high low self.now }
        ensures range { IsSensibleHeat result }
    {
        heat_of_flow(self.cp, i64::from(high) - i64::from(low))
    }

    /// The heat in watts that the stream gives or takes above the shifted temperature `t`, in
    /// tenths of °C.
    pub fn heat_above(&self, t: i32) -> i64
        requires { IsValidStream self.now }
        ensures value { result ≡ heat_above t self.now }
        ensures range { IsStreamHeat result }
    {
        self.heat_over(false, t)
    }

    /// The same, with what a latent stream gives or takes at `t` itself.
    pub fn heat_from(&self, t: i32) -> i64
        requires { IsValidStream self.now }
        ensures value { result ≡ heat_from t self.now }
        ensures range { IsStreamHeat result }
    {
        self.heat_over(true, t)
    }

    /// The heat in watts that the stream gives or takes from the shifted temperature `t` on, or
    /// above it only, in tenths of °C.
    pub fn heat_over(&self, from_itself: bool, t: i32) -> i64
        requires { IsValidStream self.now }
        ensures value { result ≡ heat_over from_itself t self.now }
        ensures range { IsStreamHeat result }
    {
        self.sensible_above(t) + self.load_over(from_itself, t)
    }

    // The sensible heat above `t`.
    fn sensible_above(&self, t: i32) -> i64
        requires { IsValidStream self.now }
        ensures value { result ≡ sensible_above t self.now }
        ensures range { IsSensibleHeat result }
    {
        let high = self.high_end();
        self.heat_between(high, t.clamp(self.low_end(), high))
    }

    // The load, if the level counts as above `t`.
    fn load_over(&self, from_itself: bool, t: i32) -> i64
        requires { IsValidStream self.now }
        ensures value { result ≡ load_over from_itself t self.now }
        ensures range { IsStreamHeat result }
    {
        if counts_above(from_itself, t, self.high_end()) {
            self.load
        } else {
            0
        }
    }
}

/// Whether some stream is latent.
pub fn has_latent(streams: &[Stream]) -> bool
    requires { All IsValidStream streams.now }
    ensures latent { IsTrue result ↔ Any IsLatent streams.now }
    ensures sensible { result ≡ false → AreSensible streams.now }
{
    streams.iter().any(|stream| stream.is_latent())
}

/// Whether some stream is latent and has the shifted level `t`, in tenths of °C.
pub fn has_level_at(streams: &[Stream], t: i32) -> bool
    requires { All IsValidStream streams.now }
    ensures { result ≡ has_level_at t streams.now }
{
    streams.iter().any(|stream| stream.is_level_at(t))
}

/// How many of these streams are on a side.
pub fn count_on(side: Side, streams: &[Stream]) -> usize
    ensures { result ≡ count_on side streams.now }
{
    streams.iter().filter(|stream| stream.is_on(side)).count()
}

/// Whether a level counts as above a place on the shifted scale, in tenths of °C: above a lower
/// one, and above an equal one where the place counts from itself.
pub fn counts_above(from_itself: bool, place: i32, level: i32) -> bool
    ensures { result ≡ counts_above from_itself place level }
{
    if from_itself {
        place <= level
    } else {
        place < level
    }
}

/// The heat in watts of a heat-capacity flow in 10 W/K over a temperature difference in tenths
/// of °C.
fn heat_of_flow(cp: i64, length: i64) -> i64
    requires cp { IsBetween (pos 0) MOST_CP cp }
    requires length { IsLength length }
    ensures value { result ≡ cp *ℤ length }
    ensures range { IsSensibleHeat result }
{
    cp * length
}

/// The temperature `t` of a source with this contribution on the shifted scale, all in tenths
/// of °C: below its own by the contribution for a hot source, above it for a cold one. Heat
/// may pass wherever the shifted hot temperature is at least the shifted cold one (Linnhoff
/// and Flower 1978; a contribution for each source as in Kemp 2007).
pub fn shifted(side: Side, t: i32, contribution: i32) -> i32
    requires low { i32.MIN ≤ℤ shifted side t contribution }
    requires high { shifted side t contribution ≤ℤ i32.MAX }
    ensures { result ≡ shifted side t contribution }
{
    match side {
        Side::Hot => t - contribution,
        Side::Cold => t + contribution,
    }
}
