//! The walk over the statements, from the streams' own branches to the last that is made.
ghost use Rattle.std.specs.Prelude.{◌≡◌, ◌+◌, ◌<◌, ◌≤◌, ◌++◌, length, take};
ghost use Rattle.networks.specs.Lines.{members};
ghost use Rattle.stream_case.specs.Case.{IsComplete};
ghost use Rattle.networks.specs.Shape.{HasShape};
ghost use Rattle.network_audit.specs.Walk.{WalkedAll};
ghost use Rattle.network_audit.specs.Joints.{joints_of};

use crate::findings::{Finding, Place};
use crate::joints::Joint;
use crate::statements::made_by;
use crate::streams::start;
use network_values::BranchValue;
use networks::{AtMostTwo, Network};
use stream_case::Case;

/// Keeps what the next branches carry, of which so many were made before; answers how many are
/// made then.
fn keep(values: &mut [BranchValue], made: usize, next: AtMostTwo<BranchValue>) -> usize
    requires { made + length (members next) ≤ length values.old }
    ensures many { result ≡ made + length (members next) }
    ensures kept { take result values.new ≡ take made values.old ++ members next }
{
    match next {
        AtMostTwo::Nothing => made,
        AtMostTwo::One(a) => {
            values[made] = a;
            made + 1
        }
        AtMostTwo::Two(a, b) => {
            values[made] = a;
            values[made + 1] = b;
            made + 2
        }
    }
}

/// Gives each branch what it carries, in the order of the statements. Branches are numbered in
/// the order in which they are made.
pub(crate) fn audit_statements(
    case: &Case,
    network: &Network,
    joints: &[Joint],
    values: &mut [BranchValue],
) -> Result<(), Finding>
    requires shape { HasShape case.now network.now }
    requires complete { IsComplete case.now }
    requires joints { joints.now ≡ joints_of network.now }
    requires room { length values.old ≡ length network.now.branches }
    ensures { WalkedAll case.now network.now values.new result }
{
    start(case.streams.as_slice(), values);
    let mut made = case.streams.len();
    for (index, line) in network.lines.as_slice().iter().enumerate() {
        let place = Place::Line(index as u32 + 1);
        match made_by(case, network, joints, &values[..made], place, line) {
            Ok(next) => made = keep(values, made, next),
            Err(found) => return Err(found),
        }
    }
    Ok(())
}
