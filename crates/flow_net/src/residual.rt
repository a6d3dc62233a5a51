//! What a search asks of an arc.
ghost use Rattle.flow_net.specs.Flow.{IsResidual};
ghost use Rattle.flow_net.specs.Net.{IsCost};

use crate::net::Link;

/// A residual arc: where an arc leads, whether it can carry more, and at what cost.
#[derive(Clone, Copy, Debug)]
pub(crate) struct Residual {
    pub head: u32,
    pub is_open: bool,
    /// What a unit more along the arc costs.
    pub cost: i64,
}

impl Residual {
    /// The residual arc along a link that carries this much, forward or back.
    pub fn along(link: &Link, carried: i64, forward: bool) -> Residual
        requires { IsCost link.now.cost }
        ensures { IsResidual link.now carried forward result }
    {
        if forward {
            Residual {
                head: link.to,
                is_open: carried < link.room,
                cost: link.cost,
            }
        } else {
            Residual {
                head: link.from,
                is_open: carried > 0,
                cost: -link.cost,
            }
        }
    }
}
