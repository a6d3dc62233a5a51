//! The arcs of a net: each link is one way forward, and one way back.
ghost use Rattle.std.specs.Prelude.{◌≡◌};
ghost use Rattle.flow_net.specs.Arc.{arc_of, turned, carry};
ghost use Rattle.flow_net.specs.Net.{IsCost, IsRoom};

use crate::net::Link;

/// A way along a link: forward from its first node to its second, or back, where flow is taken from
/// it again.
#[derive(Clone, Copy, Debug)]
pub(crate) struct Arc {
    pub tail: u32,
    pub head: u32,
    /// The index of the link.
    pub link: u32,
    pub forward: bool,
    /// What a unit more along the arc costs.
    pub cost: i64,
}

impl Arc {
    /// The way along a link, given with its index, forward or back.
    pub fn along(link: &Link, index: u32, forward: bool) -> Arc
        requires { IsCost link.now.cost }
        ensures { result ≡ arc_of link.now index forward }
    {
        let arc = Arc {
            tail: link.from,
            head: link.to,
            link: index,
            forward: true,
            cost: link.cost,
        };
        if forward { arc } else { arc.turned() }
    }

    /// The other way along the same link.
    pub fn turned(&self) -> Arc
        requires { IsCost self.now.cost }
        ensures { result ≡ turned self.now }
    {
        Arc {
            tail: self.head,
            head: self.tail,
            link: self.link,
            forward: !self.forward,
            cost: -self.cost,
        }
    }

    /// What its link carries after the arc has carried an amount more.
    pub fn carry(&self, carried: i64, amount: i64) -> i64
        requires carried { IsRoom carried }
        requires amount { IsRoom amount }
        ensures { result ≡ carry self.now carried amount }
    {
        if self.forward {
            carried + amount
        } else {
            carried - amount
        }
    }
}
