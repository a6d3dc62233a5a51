//! Names, streams, utilities and cases as values.
ghost use Rattle.std.specs.Prelude.{IfOk, OnOk};
ghost use Rattle.stream_case.specs.Case.{IsComplete, IsValid};
ghost use Rattle.stream_case.specs.Stream.{AreSensible, HasValidStreams};

use crate::tables::{StreamRow, Table, UtilityRow};
use std::alloc::Global;
use std::test::Fail;
use stream_case::{
    Case, Items, Name, Side, Stream, Utility, complete, has_latent, is_complete, is_valid,
};

pub fn name(text: &str) -> Result<Name, Fail> {
    Ok(Name::new(text.as_bytes()).ok_or("a name")?)
}

/// A stream with this contribution, from its supply to its target, or a latent one with this load.
pub fn stream(
    text: &str,
    side: Side,
    (supply, target): (i32, i32),
    heat: i64,
    contribution: i32,
) -> Result<Stream, Fail> {
    let is_latent = supply == target;
    Ok(Stream {
        name: name(text)?,
        side,
        supply,
        target,
        cp: if is_latent { 0 } else { heat },
        load: if is_latent { heat } else { 0 },
        contribution,
    })
}

/// A utility with this contribution, and with its least and its most heat.
pub fn utility(
    text: &str,
    side: Side,
    level: i32,
    (least, most): (i64, i64),
    price: i64,
    contribution: i32,
) -> Result<Utility, Fail> {
    Ok(Utility {
        name: name(text)?,
        side,
        level,
        least,
        most,
        price,
        contribution,
    })
}

fn streams_of(alloc: Global, contribution: i32, rows: &[StreamRow]) -> Result<Vec<Stream>, Fail> {
    let mut streams = Vec::new(alloc);
    for (text, side, supply, target, heat) in rows {
        streams.push(stream(text, *side, (*supply, *target), *heat, contribution)?)?;
    }
    Ok(streams)
}

pub fn utilities_of(
    alloc: Global,
    contribution: i32,
    rows: &[UtilityRow],
) -> Result<Vec<Utility>, Fail> {
    let mut utilities = Vec::new(alloc);
    for (text, side, level, least, most, price) in rows {
        utilities.push(utility(text, *side, *level, (*least, *most), *price, contribution)?)?;
    }
    Ok(utilities)
}

/// The case of a table, be it valid or not.
pub fn any_case(alloc: Global, table: &Table) -> Result<Case, Fail> {
    let streams = streams_of(alloc, table.contribution, table.streams)?;
    let utilities = utilities_of(alloc, table.contribution, table.utilities)?;
    Ok(Case {
        contribution: table.contribution,
        streams: Items::from_vec(streams),
        utilities: Items::from_vec(utilities),
        forbids: Items::from_vec(table.forbids.to_vec(alloc)?),
    })
}

/// The case, if it is valid.
pub fn valid(case: Case) -> Result<Case, Fail>
    ensures { IfOk result IsValid }
{
    if !is_valid(&case) {
        return Err("the case is not valid".into());
    }
    Ok(case)
}

/// The case of a table, if it is valid.
pub fn case_of(alloc: Global, table: &Table) -> Result<Case, Fail>
    ensures { IfOk result IsValid }
{
    valid(any_case(alloc, table)?)
}

/// Nothing, if no stream of the case is latent.
pub fn check_sensible(case: &Case) -> Result<(), Fail>
    requires { HasValidStreams case.now.streams }
    ensures { OnOk result (AreSensible case.now.streams) }
{
    if has_latent(case.streams.as_slice()) {
        return Err("a stream is latent".into());
    }
    Ok(())
}

/// What a case is when it is completed, if it is valid.
pub fn completed(alloc: Global, case: &Case) -> Result<Case, Fail>
    ensures { IfOk result IsComplete }
{
    if !is_valid(case) {
        return Err("the case is not valid".into());
    }
    let completed = complete(alloc, case)?;
    if !is_complete(&completed) {
        return Err("the case is not completed".into());
    }
    Ok(completed)
}

/// The case of a table when it is completed.
pub fn completed_case(alloc: Global, table: &Table) -> Result<Case, Fail>
    ensures { IfOk result IsComplete }
{
    completed(alloc, &any_case(alloc, table)?)
}

/// A text, another one so many times behind it, and a last one.
pub fn repeated(
    alloc: Global,
    first: &[u8],
    again: &[u8],
    count: u32,
    last: &[u8],
) -> Result<Vec<u8>, Fail> {
    let mut text = first.to_vec(alloc)?;
    for _ in 0..count {
        text.extend_from_slice(again)?;
    }
    text.extend_from_slice(last)?;
    Ok(text)
}
