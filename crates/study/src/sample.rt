//! Samples.
ghost use Rattle.std.specs.Prelude.{◌≡◌, ◌++◌, ◌*◌, ◌≤◌, IfOk, OnOk};
ghost use Rattle.stream_case.specs.Case.{IsValid};
ghost use Rattle.study.specs.declared.limits.TheConstants.{MOST_SAMPLE_NUMBER, MOST_SAMPLE_STREAMS};
ghost use Rattle.study.specs.Draws.{state_after};
ghost use Rattle.study.specs.Sample.{drawn_forbids, drawn_stream, drawn_streams, least_temperature, letter, sample, stream_name};

use crate::generator::Generator;
use crate::limits::{
    FLOW_RATES, FORBID_CHANCE, LEAST_HOT_TEMPERATURE, SAMPLE_CONTRIBUTION, TEMPERATURES,
};
use std::alloc::{AllocError, Global};
use stream_case::{Case, Forbid, Items, Name, Side, Source, Stream};

/// The least temperature that a stream of this side may have, in tenths of °C.
fn least_temperature(side: Side) -> u32
    ensures { result ≡ least_temperature side }
{
    match side {
        Side::Hot => LEAST_HOT_TEMPERATURE,
        Side::Cold => 0,
    }
}

fn letter(side: Side) -> &'static str
    ensures { result.now ≡ letter side }
{
    match side {
        Side::Hot => "H",
        Side::Cold => "C",
    }
}

/// `H1`, `H2` and so on for hot streams, `C1`, `C2` and so on for cold ones.
fn stream_name(alloc: Global, side: Side, number: u32) -> Result<Name, AllocError>
    requires { number ≤ MOST_SAMPLE_STREAMS }
    ensures { IfOk result (λ name. name ≡ stream_name side number) }
{
    let letter = letter(side);
    let text = format!(in alloc; "{letter}{number}")?;
    Ok(Name::new(text.as_bytes()).unwrap())
}

/// The stream of this side that the next three draws make.
fn draw_stream(
    alloc: Global,
    generator: &mut Generator,
    side: Side,
    number: u32,
) -> Result<Stream, AllocError>
    requires { number ≤ MOST_SAMPLE_STREAMS }
    ensures stream { IfOk result
        (λ stream. stream ≡ drawn_stream side generator.old.state number) }
    ensures state { generator.new.state ≡ state_after generator.old.state 3 }
{
    let low = least_temperature(side) + generator.draw(TEMPERATURES);
    let high = low + 1 + generator.draw(TEMPERATURES);
    let cp = 1 + generator.draw(FLOW_RATES);
    let (supply, target) = match side {
        Side::Hot => (high, low),
        Side::Cold => (low, high),
    };
    Ok(Stream::sensible(
        stream_name(alloc, side, number)?,
        side,
        supply as i32,
        target as i32,
        i64::from(cp),
        SAMPLE_CONTRIBUTION,
    ))
}

/// Appends so many streams of this side.
fn push_streams(
    streams: &mut Vec<Stream>,
    alloc: Global,
    generator: &mut Generator,
    side: Side,
    count: u32,
) -> Result<(), AllocError>
    requires { count ≤ MOST_SAMPLE_STREAMS }
    ensures streams { OnOk result
        (streams.new.items ≡ streams.old.items ++ drawn_streams side generator.old.state count) }
    ensures state { OnOk result
        (generator.new.state ≡ state_after generator.old.state (3 * count)) }
{
    for index in 0..count {
        streams.push(draw_stream(alloc, generator, side, index + 1)?)?;
    }
    Ok(())
}

/// Each hot stream and the cold stream of its number are forbidden where 0 is drawn.
fn draw_forbids(
    alloc: Global,
    generator: &mut Generator,
    count: u32,
) -> Result<Vec<Forbid>, AllocError>
    requires { count ≤ MOST_SAMPLE_STREAMS }
    ensures { IfOk result (λ forbids. forbids.items ≡ drawn_forbids generator.old.state count) }
{
    let mut forbids = Vec::new(alloc);
    for index in 0..count {
        if generator.draw(FORBID_CHANCE) == 0 {
            forbids.push(Forbid {
                hot: Source::Stream(index),
                cold: Source::Stream(count + index),
            })?;
        }
    }
    Ok(forbids)
}

/// A valid case of `count` hot and `count` cold streams, the same each time for the same number
/// (this project's rule): `number` is the first state of the generator, whose draws make the hot
/// streams, then the cold ones, and then tell for each pair of a hot and a cold stream of one
/// number whether it is forbidden. The case gives no utility, so it has a heat flow once it is
/// completed.
pub fn sample_case(alloc: Global, number: u32, count: u32) -> Result<Case, AllocError>
    requires least_number { 1 ≤ number }
    requires most_number { number ≤ MOST_SAMPLE_NUMBER }
    requires some_streams { 1 ≤ count }
    requires few_streams { count ≤ MOST_SAMPLE_STREAMS }
    ensures case { IfOk result (λ case. case ≡ sample number count) }
    ensures valid { IfOk result IsValid }
{
    let mut generator = Generator::new(number);
    let mut streams = Vec::new(alloc);
    push_streams(&mut streams, alloc, &mut generator, Side::Hot, count)?;
    push_streams(&mut streams, alloc, &mut generator, Side::Cold, count)?;
    let forbids = draw_forbids(alloc, &mut generator, count)?;
    Ok(Case {
        contribution: SAMPLE_CONTRIBUTION,
        streams: Items::from_vec(streams),
        utilities: Items::new(alloc),
        forbids: Items::from_vec(forbids),
    })
}
