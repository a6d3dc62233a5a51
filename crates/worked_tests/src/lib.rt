//! Tests of the library crates from outside, as a user calls them, on tables that were worked by
//! hand.
#![tactic(auto)]

#[cfg(test)]
mod chains_tests;
#[cfg(test)]
mod compare;
#[cfg(test)]
mod corner_flow_tests;
#[cfg(test)]
mod curves_tests;
#[cfg(test)]
mod flow_problem_tests;
#[cfg(test)]
mod flows;
#[cfg(test)]
mod grid_tests;
#[cfg(test)]
mod heat_flow_tests;
#[cfg(test)]
mod least_cost_tests;
#[cfg(test)]
mod network_audit_tests;
#[cfg(test)]
mod price_floor_tests;
#[cfg(test)]
mod price_study_tests;
#[cfg(test)]
mod problem_table_tests;
#[cfg(test)]
mod reports_tests;
#[cfg(test)]
mod site_tests;
#[cfg(test)]
mod spread_tests;
#[cfg(test)]
mod study_tests;
#[cfg(test)]
mod transport_tests;
#[cfg(test)]
mod vertical_design_tests;
