// Which commit bars another one.
ghost use Rattle.std.specs.Prelude.{◌≡◌, ◌≤◌, ◌<◌, List, length, Some};
ghost use Rattle.std.specs.Option.{option_map};
ghost use Rattle.engine_spec.specs.History.{lesser};
ghost use Rattle.engine_spec.specs.TwoLogs.{TwoLogs};
ghost use Rattle.engine_spec.specs.declared.commits.Commit.{Commit};
ghost use Rattle.wal_rules.specs.Indexing.{IsIndexOf};
ghost use Rattle.wal_rules.specs.Rules.{Finds, pair_of};

use page_face::ReadSet;
use wal_index::WalIndex;

/// A page that was read and written since, and the first commit after the snapshot that wrote it.
#[derive(Clone, Copy, Debug, PartialEq, Eq)]
pub struct Conflict {
    /// The page.
    pub page: u32,
    /// The number of the commit.
    pub commit: u64,
}

/// The least page of these that a commit after the n-th wrote, with the first such commit; none where no such commit wrote any. Where page 1 doesn't count
/// as a whole (`whole` is false), only commits that changed it from byte 100 on count as having written it.
///
/// The index holds all commits after the n-th.
pub fn least_conflict(reads: &ReadSet, whole: bool, index: &WalIndex, n: u64) -> Option<Conflict>
    ensures { (logs : TwoLogs) (history : List Commit) → IsIndexOf index.now logs history → logs.other_since ≤ n → n ≤ length history
        → Finds whole reads.now n history result }
{
    let pages = reads.pages();
    let mut found: Option<Conflict> = None;
    let mut left = pages.len();
    while left > 0 {
        left -= 1;
        let page = pages[left];
        if let Some(commit) = index.written_since(n, page, whole) {
            found = Some(lesser(Conflict { page, commit }, found));
        }
    }
    found
}

// Of a conflict and perhaps another, that of the lesser page.
fn lesser(one: Conflict, other: Option<Conflict>) -> Conflict
    ensures { Some (pair_of result) ≡ lesser (pair_of one) (option_map pair_of other) }
{
    match other {
        Some(found) if found.page < one.page => found,
        _ => one,
    }
}
