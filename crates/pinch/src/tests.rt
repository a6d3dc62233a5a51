//! Tests of the commands, over files and an output in memory. Their rows are constants: what a body
//! makes is carried through the proof of each call behind it, and a constant is not.

mod arguments;
mod audit;
mod audit_steps;
mod case_rows;
mod certified_reports;
mod composite_curves;
mod cuts;
mod design;
mod faults;
mod floors;
mod flow;
mod hostile_cuts;
mod hostile_orders;
mod hostile_refused;
mod hostile_worked;
mod latent;
mod least_cost;
mod limits;
mod network_lines;
mod penalty_lines;
mod price_studies;
mod sample;
mod support;
mod sweep;
mod targets;
mod total_site;
mod vertical;
mod words;
