//! What streams carry at their ends, and whether each of them ends.
ghost use Rattle.std.specs.Prelude.{◌≡◌, ◌<◌, ◌≤◌, length, map, take, All};
ghost use Rattle.std.specs.List.{list_any};
ghost use Rattle.stream_case.specs.Stream.{AreStreams, IsValidStream};
ghost use Rattle.network_values.specs.Values.{first_state, first_value, full_size, last_state};
ghost use Rattle.network_audit.specs.Answers.{Judged};
ghost use Rattle.network_audit.specs.Items.{ends_stream, stream_items};

use crate::findings::{Finding, Place, Reason};
use crate::joints::stream_at;
use fractions::Frac;
use network_values::BranchValue;
use networks::{Branch, Line, Network};
use stream_case::{Case, Side, Stream};

/// The size of a whole stream: its heat-capacity flow in 10 W/K, or its load in W.
pub(crate) fn full_size(stream: &Stream) -> Frac
    requires { IsValidStream stream.now }
    ensures { result ≡ full_size stream.now }
{
    // One of the two is 0.
    Frac::whole(stream.cp + stream.load)
}

/// The state in which a stream begins: its supply in tenths of °C. A latent one has all of its load
/// to give, 1, or has taken none of it, 0.
fn first_state(stream: &Stream) -> Frac
    ensures { result ≡ first_state stream.now }
{
    if !stream.is_latent() {
        return Frac::whole(i64::from(stream.supply));
    }
    match stream.side {
        Side::Hot => Frac::whole(1),
        Side::Cold => Frac::whole(0),
    }
}

/// The state in which a stream ends: its target in tenths of °C. A latent one has none of its load
/// left to give, 0, or has taken all of it, 1.
pub(crate) fn last_state(stream: &Stream) -> Frac
    ensures { result ≡ last_state stream.now }
{
    if !stream.is_latent() {
        return Frac::whole(i64::from(stream.target));
    }
    match stream.side {
        Side::Hot => Frac::whole(0),
        Side::Cold => Frac::whole(1),
    }
}

/// What a stream's own branch carries.
pub(crate) fn first_value(stream: &Stream) -> BranchValue
    requires { IsValidStream stream.now }
    ensures { result ≡ first_value stream.now }
{
    BranchValue {
        cp: full_size(stream),
        t: first_state(stream),
    }
}

/// Gives the streams' own branches what they carry.
pub(crate) fn start(streams: &[Stream], values: &mut [BranchValue])
    requires valid { All IsValidStream streams.now }
    requires room { length streams.now ≤ length values.old }
    ensures { take (length streams.now) values.new ≡ map first_value streams.now }
{
    for (index, stream) in streams.iter().enumerate() {
        values[index] = first_value(stream);
    }
}

/// Whether a statement ends a branch of a stream.
fn ends_stream(branches: &[Branch], stream: u32, line: &Line) -> bool
    ensures { result ≡ ends_stream branches.now stream line.now }
{
    match *line {
        Line::End { branch } => stream_at(branches, branch) == stream,
        _ => false,
    }
}

/// Whether some statement does.
fn is_ended(branches: &[Branch], lines: &[Line], stream: u32) -> bool
    ensures { result ≡ list_any (ends_stream branches.now stream) lines.now }
{
    lines.iter().any(|line| ends_stream(branches, stream, line))
}

/// Each stream has to end.
pub(crate) fn audit_streams(case: &Case, network: &Network) -> Result<(), Finding>
    requires { AreStreams case.now.streams }
    ensures { Judged (stream_items case.now network.now) (λ _. Unit {0}) result }
{
    let branches = network.branches.as_slice();
    let lines = network.lines.as_slice();
    for (index, stream) in case.streams.as_slice().iter().enumerate() {
        if !is_ended(branches, lines, index as u32) {
            return Err(Finding::Failed {
                place: Place::Stream(index as u32),
                reason: Reason::Unfinished {
                    found: Frac::whole(0),
                    wanted: full_size(stream),
                },
            });
        }
    }
    Ok(())
}
