//! Tests at the limits, from outside.
#![tactic(auto)]

#[cfg(test)]
mod compare;
#[cfg(test)]
mod cut_report_tests;
#[cfg(test)]
mod flows;
#[cfg(test)]
mod large_network_tests;
#[cfg(test)]
mod large_site_tests;
#[cfg(test)]
mod largest_case_tests;
#[cfg(test)]
mod limits_tests;
#[cfg(test)]
mod long_file_tests;
#[cfg(test)]
mod long_span_tests;
#[cfg(test)]
mod numbered;
#[cfg(test)]
mod wide_case;
#[cfg(test)]
mod wide_case_tests;
