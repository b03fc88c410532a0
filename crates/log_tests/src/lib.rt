//! Tests of logs: their headers, and what is accepted of them. They stand apart, since a crate with tests of its own is proved
//! twice.
#![tactic(auto)]

#[cfg(test)]
mod log_headers;
#[cfg(test)]
mod log_scan;
#[cfg(test)]
mod shifting;
#[cfg(test)]
mod stock_logs;
#[cfg(test)]
mod torn_headers;
