// Why nothing was put in.
use page_face::FetchFault;
use thiserror::Error;

/// Why a row or an entry wasn't put into a tree.
#[derive(Clone, Copy, Debug, PartialEq, Eq, Error)]
pub enum InsertFault {
    /// The key is there, and nothing was changed.
    #[error("the key is there")]
    Exists,
    /// A page couldn't be read, made or put. The tree may be changed in part.
    #[error("{0}")]
    Fetch(FetchFault),
}
