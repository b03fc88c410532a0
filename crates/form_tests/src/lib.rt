//! Tests of the byte forms, of the lines of scripts and of the words of the command line. They stand apart, since a crate with tests of
//! its own is proved twice.
#![tactic(auto)]

#[cfg(test)]
mod command_lines;
#[cfg(test)]
mod fields;
#[cfg(test)]
mod header;
#[cfg(test)]
mod lines;
#[cfg(test)]
mod stock_headers;
