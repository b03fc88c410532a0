//! Tests of what stands under an engine's face, and of page lines over the engine in memory. They stand apart, since a crate with
//! tests of its own is proved twice.
#![tactic(auto)]

#[cfg(test)]
mod first_page;
#[cfg(test)]
mod lines;
#[cfg(test)]
mod shared;
#[cfg(test)]
mod shelf;
#[cfg(test)]
mod sizes;
