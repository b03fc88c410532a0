// Which page bars a commit.
ghost use Rattle.std.specs.Prelude.{◌≡◌, ◌+◌, ◌<◌, ◌≤◌, ◌^◌, length, drop};
ghost use Rattle.engine_spec.specs.History.{first_writer, conflict, lesser};

use crate::made::Made;
use engine_spec::Mode;

/// The number of the first of these commits that wrote the page; `before` commits stand before them.
pub fn first_writer_of(mode: Mode, page: u32, before: u64, commits: &[Made]) -> Option<u64>
    requires { before + length commits.now < 2 ^ 64 }
    ensures { result ≡ first_writer mode page before commits.now }
{
    for (index, commit) in commits.iter().enumerate() {
        if commit.does_count(mode, page) {
            return Some(before + index as u64 + 1);
        }
    }
    None
}

/// The least page of these that a commit after the snapshot wrote, with the first such commit. It looks at each commit
/// since the snapshot for each page.
pub fn find_conflict(mode: Mode, reads: &[u32], snap: u64, history: &[Made]) -> Option<(u32, u64)>
    requires { snap ≤ length history.now }
    ensures { result ≡ conflict mode reads.now snap history.now }
{
    let later = &history[snap as usize..];
    let mut found: Option<(u32, u64)> = None;
    let mut left = reads.len();
    while left > 0 {
        left -= 1;
        let page = reads[left];
        if let Some(commit) = first_writer_of(mode, page, snap, later) {
            found = Some(least_of(page, commit, found));
        }
    }
    found
}

// Of a page with its commit and perhaps another, the one of the lesser page.
fn least_of(page: u32, commit: u64, other: Option<(u32, u64)>) -> (u32, u64)
    ensures { Some result ≡ lesser (page, commit) other }
{
    match other {
        Some(found) if found.0 < page => found,
        _ => (page, commit),
    }
}
