//! Tests of the check of a whole database, over one that the real sqlite3 wrote and damages of it.
#![tactic(auto)]

#[cfg(test)]
mod checks;
#[cfg(test)]
mod laid;
#[cfg(test)]
mod stock;
