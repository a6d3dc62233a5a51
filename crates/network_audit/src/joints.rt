//! The exchangers of a network with the branches that pass them, in one table.
ghost use Rattle.std.specs.Prelude.{◌≡◌, ◌<◌, [], List, length, All, IfOk};
ghost use Rattle.networks.specs.Lines.{Exchanger, exchangers_of, stream_at};
ghost use Rattle.network_audit.specs.Joints.{PassesBelow, joints_among, joints_of, noted, passed_joint};

use fractions::Frac;
use networks::{Branch, Line, Network};
use std::alloc::{AllocError, Global};
use stream_case::Source;

/// The branch before a pass, and the branch behind it.
#[derive(Clone, Copy)]
pub struct Crossing {
    pub from: u32,
    pub to: u32,
}

/// An exchanger, and the branches that pass it on its two sides.
#[derive(Clone, Copy)]
pub struct Joint {
    pub hot: Source,
    pub cold: Source,
    /// In W.
    pub duty: Frac,
    /// The pass that gives the heat, and the pass that takes it; a utility has none.
    pub given: Option<Crossing>,
    pub taken: Option<Crossing>,
}

/// The exchangers of a network in order, with all passes.
pub(crate) fn joints_of(alloc: Global, network: &Network) -> Result<Vec<Joint>, AllocError>
    requires { All (PassesBelow (length (exchangers_of network.now.lines))) network.now.lines }
    ensures { IfOk result (λ joints. joints.items ≡ joints_of network.now) }
{
    let mut joints = declared(alloc, network.lines.as_slice())?;
    note_passes(
        network.branches.as_slice(),
        network.lines.as_slice(),
        &mut joints,
    );
    Ok(joints)
}

/// The exchangers that some statements declare, in order, without passes.
fn declared(alloc: Global, lines: &[Line]) -> Result<Vec<Joint>, AllocError>
    ensures { IfOk result (λ joints. (branches : List Branch)
        → joints.items ≡ joints_among branches [] (exchangers_of lines.now)) }
{
    let mut joints = Vec::new(alloc);
    for line in lines {
        if let Line::Exchanger {
            hot,
            cold,
            duty,
            ..
        } = *line
        {
            joints.push(Joint {
                hot,
                cold,
                duty,
                given: None,
                taken: None,
            })?;
        }
    }
    Ok(joints)
}

/// Notes for each exchanger the first pass on each of its sides.
fn note_passes(branches: &[Branch], lines: &[Line], joints: &mut [Joint])
    requires { All (PassesBelow (length joints.old)) lines.now }
    ensures { (exchangers : List Exchanger)
        → joints.old ≡ joints_among branches.now [] exchangers
        → joints.new ≡ joints_among branches.now lines.now exchangers }
{
    for line in lines {
        if let Line::Pass {
            from,
            exchanger,
            to,
        } = *line
        {
            let joint = joints[exchanger as usize];
            joints[exchanger as usize] = joint.passed(
                stream_at(branches, from),
                Crossing { from, to },
            );
        }
    }
}

impl Joint {
    /// The exchanger where one more branch of a stream passes it.
    fn passed(self, stream: u32, crossing: Crossing) -> Joint
        ensures { result ≡ passed_joint stream crossing self }
    {
        Joint {
            given: noted(self.hot, stream, crossing, self.given),
            taken: noted(self.cold, stream, crossing, self.taken),
            ..self
        }
    }
}

/// The pass that is known on the side of a source, where one more branch of a stream passes: the
/// first is kept.
fn noted(
    source: Source,
    stream: u32,
    crossing: Crossing,
    known: Option<Crossing>,
) -> Option<Crossing>
    ensures { result ≡ noted source stream crossing known }
{
    if known.is_none() && source == Source::Stream(stream) {
        Some(crossing)
    } else {
        known
    }
}

/// The stream of the branch with a number; the first, of which no rule speaks, where there is none.
#[tactic(auto, unfolding(networks::specs::Lines::stream_at))]
pub fn stream_at(branches: &[Branch], number: u32) -> u32
    ensures { result ≡ stream_at branches.now number }
{
    match branches.get(number as usize) {
        Some(branch) => branch.stream,
        None => 0,
    }
}
