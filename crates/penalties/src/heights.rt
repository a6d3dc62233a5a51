//! Heights of branches above the reference place.
ghost use Rattle.std.specs.Prelude.{◌≡◌, ◌+◌, ◌<◌, ◌^◌, All, if◌then◌else◌};
ghost use Rattle.fractions.specs.Rationals.{minus, rational_zero, times};
ghost use Rattle.network_values.specs.Heights.{height};
ghost use Rattle.network_values.specs.Penalties.{base_of};
ghost use Rattle.penalties.specs.Answers.{Formed};
ghost use Rattle.penalties.specs.Steps.{latent_steps, sensible_steps};
ghost use Rattle.stream_case.specs.Limits.{IsShifted};
ghost use Rattle.stream_case.specs.Shift.{shifted};

use crate::list::TooFine;
use fractions::Frac;
use network_audit::{Auditor, Place, stream_at};
use network_values::BranchValue;
use networks::Network;
use problem_table::Reference;
use stream_case::{Case, Side, Stream, counts_above, shifted};

/// A network with what an audit knows of it, seen from the reference place.
#[derive(Clone, Copy)]
pub(crate) struct Survey<'a> {
    pub case: &'a Case,
    pub network: &'a Network,
    pub auditor: &'a Auditor,
    pub reference: Reference,
    ghost levels: { All
        (λ s. IsShifted (shifted s.side s.supply s.contribution))
        case.now.streams },
}

/// The reference place as a temperature of a stream, in tenths of °C.
fn base_of(stream: &Stream, reference: i32) -> Frac
    ensures { result ≡ base_of reference stream.now }
{
    let contribution = i64::from(stream.contribution);
    let reference = i64::from(reference);
    match stream.side {
        Side::Hot => Frac::whole(reference + contribution),
        Side::Cold => Frac::whole(reference - contribution),
    }
}

/// The level of a latent stream as a shifted temperature, in tenths of °C.
fn level_of(stream: &Stream) -> i32
    requires { IsShifted (shifted stream.now.side stream.now.supply stream.now.contribution) }
    ensures { result ≡ shifted stream.now.side stream.now.supply stream.now.contribution }
{
    shifted(stream.side, stream.supply, stream.contribution)
}

/// The height in W of what a branch of a sensible stream carries above a base in tenths of °C: two
/// steps, of which the second is only taken above the base.
fn sensible_height(
    place: Place,
    step: u32,
    base: &Frac,
    value: &BranchValue,
) -> Result<Frac, TooFine>
    requires { step + 1 < 2 ^ 32 }
    ensures { let distance = minus value.now.t base.now in Formed
        (sensible_steps place step value.now.cp distance)
        (λ h. h ≡ height value.now.cp distance)
        result }
{
    let Some(distance) = value.t.minus(base) else {
        return Err(TooFine { place, step });
    };
    if !distance.is_positive() {
        return Ok(Frac::whole(0));
    }
    let step = step + 1;
    match value.cp.times(&distance) {
        Some(height) => Ok(height),
        None => Err(TooFine { place, step }),
    }
}

/// The height in W of what a branch of a latent stream carries, by whether its level counts as
/// above the place: at most one step, with the number of a height.
fn latent_height(
    place: Place,
    step: u32,
    counts: bool,
    value: &BranchValue,
) -> Result<Frac, TooFine>
    requires { step + 1 < 2 ^ 32 }
    ensures { Formed
        (latent_steps place step counts value.now)
        (λ h. h ≡ (if counts then times value.now.cp value.now.t else rational_zero))
        result }
{
    if !counts {
        return Ok(Frac::whole(0));
    }
    let step = step + 1;
    match value.cp.times(&value.t) {
        Some(height) => Ok(height),
        None => Err(TooFine { place, step }),
    }
}

impl<'a> Survey<'a> {
    ghost use Rattle.network_values.specs.Values.{value_at};
    ghost use Rattle.penalties.specs.Survey.{seen_height, seen_steps, values_of};

    /// What a branch carries; nothing, of which no rule speaks, where there is none.
    fn value(&self, branch: u32) -> BranchValue
        ensures { result ≡ value_at (values_of self.now.auditor.now) branch }
    {
        let none = BranchValue {
            cp: Frac::whole(0),
            t: Frac::whole(0),
        };
        self.auditor.value(branch).unwrap_or(none)
    }

    /// The height in W of a branch, from this step on.
    pub fn height(&self, place: Place, step: u32, branch: u32) -> Result<Frac, TooFine>
        requires { step + 1 < 2 ^ 32 }
        ensures { Formed
            (seen_steps self.now place step branch)
            (λ h. h ≡ seen_height self.now branch)
            result }
    {
        let stream = stream_at(self.network.branches.as_slice(), branch);
        let Some(stream) = self.case.streams.get(stream as usize) else {
            return Ok(Frac::whole(0));
        };
        let reference = self.reference;
        let value = self.value(branch);
        if stream.is_latent() {
            let counts = counts_above(reference.from_itself, reference.place, level_of(stream));
            return latent_height(place, step, counts, &value);
        }
        let base = base_of(stream, reference.place);
        sensible_height(place, step, &base, &value)
    }
}
