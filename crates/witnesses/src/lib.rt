//! Small types that show that the faces can be met where nothing else shows it yet: pages that may be changed, made and given up
//! ([`Shelf`]), a transaction's pages over the engine in memory ([`Live`]), and an engine with logs and readers to which others commit and
//! on which beginning may be barred ([`Shared`]).
#![tactic(auto)]

mod live;
mod shared;
mod shelf;

pub use live::Live;
pub use shared::{Shared, Waiting};
pub use shelf::Shelf;
