//! Tests of cases, networks and their files from outside, as a user calls them.
#![tactic(auto)]

#[cfg(test)]
mod case_text_tests;
#[cfg(test)]
mod compare;
#[cfg(test)]
mod csv_rows_tests;
#[cfg(test)]
mod fractions_tests;
#[cfg(test)]
mod network_printer_tests;
#[cfg(test)]
mod network_text_tests;
#[cfg(test)]
mod pinch_outside_tests;
#[cfg(test)]
mod site_text_tests;
#[cfg(test)]
mod stream_case_tests;
#[cfg(test)]
mod study_text_tests;
#[cfg(test)]
mod sums_tests;
