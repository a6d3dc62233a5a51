//! The least-cost flow engine: an amount routed through a net at least cost, with potentials that
//! prove it, or a cut that the amount cannot pass. It is the method of successive shortest paths with
//! potentials, a primal-dual one (Ahuja, Magnanti and Orlin 1993), with level graphs (Dinic 1970)
//! where the sink's potential did not rise.
#![tactic(auto)]

mod adjacency;
mod arc;
mod least_cost;
mod level_graph;
mod limits;
mod net;
mod problem;
mod queue;
mod residual;
mod routing;
mod search;
mod threads;

pub use least_cost::solve;
pub use limits::{MOST_COST, MOST_INITIAL_POTENTIAL, MOST_LINKS, MOST_NODES, MOST_ROOM};
pub use net::{Link, Net, Solved};
