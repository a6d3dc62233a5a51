//! The courses of the streams.

ghost use Rattle.std.specs.Prelude.{◌≡◌, ◌<◌, ◌^◌, length, IfOk};
ghost use Rattle.std.specs.List.{filter_map};
ghost use Rattle.pieces.specs.Pieces.{course_of, courses_of, is_of_stream, own_shares, share_at};

use crate::exchange::Exchange;
use design_lines::{Course, Share};
use std::alloc::{AllocError, Global};
use stream_case::{Case, Items, Side, Source};

/// Whether the piece at an index is one of the stream.
fn is_of_stream(sources: &[Source], stream: u32, index: u32) -> bool
    ensures { result ≡ is_of_stream sources.now stream index }
{
    match sources.get(index as usize) {
        Some(source) => source.is_stream(stream),
        None => false,
    }
}

/// The shares of a stream, each with the index of its piece: one for each exchange of its pieces, in
/// their order.
fn own_shares(
    alloc: Global,
    side: Side,
    stream: u32,
    sources: &[Source],
    exchanges: &[Exchange],
) -> Result<Vec<(u32, Share)>, AllocError>
    requires { length exchanges.now < 2 ^ 32 }
    ensures { IfOk result (λ own. own.items ≡ own_shares side sources.now exchanges.now stream) }
{
    let mut own = Vec::new(alloc);
    for (number, exchange) in exchanges.iter().enumerate() {
        let index = exchange.piece_on(side);
        if !is_of_stream(sources, stream, index) {
            continue;
        }
        let share = Share {
            exchanger: number as u32,
            cp: exchange.size_on(side),
        };
        own.push((index, share))?;
    }
    Ok(own)
}

/// Those of a stream's shares that are of the piece at an index.
fn shares_of(alloc: Global, index: u32, own: &[(u32, Share)]) -> Result<Items<Share>, AllocError>
    ensures { IfOk result (λ shares. shares ≡ filter_map (share_at index) own.now) }
{
    let mut shares = Items::new(alloc);
    for share in own {
        if share.0 != index {
            continue;
        }
        shares.push(share.1)?;
    }
    Ok(shares)
}

/// The course of a stream: a hot one goes down through its pieces, and a cold one up. A piece
/// without exchanges is left out.
fn course_of(
    alloc: Global,
    side: Side,
    stream: u32,
    sources: &[Source],
    exchanges: &[Exchange],
) -> Result<Course, AllocError>
    requires few_pieces { length sources.now < 2 ^ 32 }
    requires few { length exchanges.now < 2 ^ 32 }
    ensures { IfOk result (λ course. course ≡ course_of side sources.now exchanges.now stream) }
{
    let own = own_shares(alloc, side, stream, sources, exchanges)?;
    let mut stages = Vec::new(alloc);
    for (index, source) in sources.iter().enumerate() {
        if !source.is_stream(stream) {
            continue;
        }
        let shares = shares_of(alloc, index as u32, own.as_slice())?;
        if !shares.is_empty() {
            stages.push(shares)?;
        }
    }
    if side == Side::Cold {
        stages.reverse();
    }
    Ok(Items::from_vec(stages))
}

/// The courses of all streams, in their order.
pub(crate) fn courses_of(
    alloc: Global,
    case: &Case,
    hot: &[Source],
    cold: &[Source],
    exchanges: &[Exchange],
) -> Result<Vec<Course>, AllocError>
    requires few_streams { length case.now.streams < 2 ^ 32 }
    requires few_hot { length hot.now < 2 ^ 32 }
    requires few_cold { length cold.now < 2 ^ 32 }
    requires few { length exchanges.now < 2 ^ 32 }
    ensures { IfOk result (λ courses. courses.items
        ≡ courses_of case.now hot.now cold.now exchanges.now) }
{
    let mut courses = Vec::new(alloc);
    for (number, stream) in case.streams.as_slice().iter().enumerate() {
        let sources = match stream.side {
            Side::Hot => hot,
            Side::Cold => cold,
        };
        let course = course_of(alloc, stream.side, number as u32, sources, exchanges)?;
        courses.push(course)?;
    }
    Ok(courses)
}
