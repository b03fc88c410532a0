// The content of a page: its cells and its freeblocks, that no byte is in two of them, and that the fragments are what is left.
//
// How many cells and freeblocks have a byte stands in an array of marks, one for each usable byte, which stop at 2.
ghost use Rattle.std.specs.Prelude.{◌≡◌, ℕ, ◌+◌, ◌*◌, ◌^◌, ◌==◌, ◌&&◌, nat_le, ◌<◌, ◌≤◌, ◌⊎◌, min, length, slice_index, List, [], suc, MatchResult, Some, None};
ghost use Rattle.page_spec.specs.Bytes.{u16_at};
ghost use Rattle.node_spec.specs.Layout.{Piece, taken};
ghost use Rattle.node_spec.specs.Faults.{first_fault, cell_fault, cells_in, blocks_in, chain_fault, byte_fault, is_block};
ghost use Rattle.page_form.specs.Marks.{AreMarks, IsCheckedContent};

use crate::cells::cell_len;
use crate::front::content_start;
use be_fields::get_u16;
use node_spec::Kind;

/// Pages of at most so many usable bytes are checked with a small array of marks.
const SMALL: usize = 4096;

/// The most usable bytes of a page.
const LARGE: usize = 65536;

// Marks bytes once more.
fn mark(marks: &mut [u8], start: usize, len: usize)
    requires { start + len ≤ length marks.old }
    ensures inside { (k : ℕ) → start ≤ k → k < start + len → slice_index marks.new k ≡ min 2 (slice_index marks.old k + 1) }
    ensures outside { (k : ℕ) → (k < start) ⊎ (start + len ≤ k) → slice_index marks.new k ≡ slice_index marks.old k }
{
    for k in start..start + len {
        let more = if marks[k] == 0 { 1 } else { 2 };
        marks[k] = more;
    }
}

// Marks all cells, and tells how many bytes they have together, or the start of the first one that isn't whole.
fn mark_cells(
    bytes: &[u8],
    u: usize,
    kind: Kind,
    pointers: usize,
    count: usize,
    marks: &mut [u8],
) -> Result<usize, usize>
    requires usable { (480 ≤ u) × (u ≤ 65536) × (u ≤ length bytes.now) }
    requires room { pointers + 2 * count ≤ u }
    requires marks { (u ≤ length marks.old) × AreMarks marks.old [] [] }
    ensures { MatchResult result
        (λ sum. (first_fault count (cell_fault u kind bytes.now pointers) ≡ None) × (sum ≡ taken (cells_in u kind bytes.now pointers count))
        × (sum ≤ 65536 * count) × AreMarks marks.new (cells_in u kind bytes.now pointers count) [])
        (λ at. first_fault count (cell_fault u kind bytes.now pointers) ≡ Some at) }
{
    let mut sum = 0;
    for i in 0..count {
        let start = get_u16(bytes, pointers + 2 * i);
        let Some(len) = cell_len(bytes, u, kind, start) else {
            return Err(usize::from(start));
        };
        mark(marks, usize::from(start), len);
        sum += len;
    }
    Ok(sum)
}

// Whether at a place in the content is a freeblock, behind the place before.
#[tactic(auto, unfolding(node_spec::specs::Faults::is_block))]
fn is_block(bytes: &[u8], u: usize, content: usize, before: usize, at: usize) -> bool
    requires { (u ≤ length bytes.now) × (at < 65536) }
    ensures { result ≡ is_block u content bytes.now before at }
{
    if before >= at || at < content || at + 4 > u {
        return false;
    }
    let size = usize::from(get_u16(bytes, at + 2));
    size >= 4 && at + size <= u
}

// Marks all freeblocks of the chain from a place on, and tells how many bytes they have together, or the first place that breaks the chain.
fn mark_blocks(
    bytes: &[u8],
    u: usize,
    content: usize,
    first: u16,
    marks: &mut [u8],
) -> Result<usize, usize>
    requires usable { (u ≤ 65536) × (u ≤ length bytes.now) }
    requires marks { u ≤ length marks.old }
    ensures { MatchResult result
        (λ sum. (chain_fault (suc u) u content bytes.now 0 first ≡ None) × (sum ≡ taken (blocks_in (suc u) bytes.now first))
        × (sum ≤ 65536 * u) × ((cells : List Piece) → AreMarks marks.old cells [] → AreMarks marks.new cells (blocks_in (suc u) bytes.now first)))
        (λ at. chain_fault (suc u) u content bytes.now 0 first ≡ Some at) }
{
    let mut sum = 0;
    let mut before = 0;
    let mut at = usize::from(first);
    while at != 0 {
        if !is_block(bytes, u, content, before, at) {
            return Err(at);
        }
        let size = usize::from(get_u16(bytes, at + 2));
        mark(marks, at, size);
        sum += size;
        before = at;
        at = usize::from(get_u16(bytes, at));
    }
    Ok(sum)
}

// The first of so many bytes that is in two pieces.
fn shared_byte(marks: &[u8], u: usize) -> Option<usize>
    requires { u ≤ length marks.now }
    ensures { (cells blocks : List Piece) → AreMarks marks.now cells blocks → result ≡ first_fault u (byte_fault cells blocks) }
{
    for k in 0..u {
        if marks[k] > 1 {
            return Some(k);
        }
    }
    None
}

/// Checks the content of a page whose header stands at `at` and its pointers at `pointers`.
///
/// Ok tells how many bytes its cells have together, Err the first field of the content that breaks the text of a page.
pub(crate) fn check_content(
    bytes: &[u8],
    u: usize,
    at: usize,
    pointers: usize,
    kind: Kind,
) -> Result<usize, usize>
    requires usable { (480 ≤ u) × (u ≤ 65536) × (u ≤ length bytes.now) }
    requires room { (at + 8 ≤ pointers) × (pointers + 2 * u16_at bytes.now (at + 3) ≤ u) }
    ensures { IsCheckedContent u at pointers kind bytes.now result }
{
    if u <= SMALL {
        check_small(bytes, u, at, pointers, kind)
    } else {
        check_large(bytes, u, at, pointers, kind)
    }
}

// The same with marks for a small page, and for any page: a function pays at its entry for all the marks that it may need.
fn check_small(
    bytes: &[u8],
    u: usize,
    at: usize,
    pointers: usize,
    kind: Kind,
) -> Result<usize, usize>
    requires usable { (480 ≤ u) × (u ≤ 4096) × (u ≤ length bytes.now) }
    requires room { (at + 8 ≤ pointers) × (pointers + 2 * u16_at bytes.now (at + 3) ≤ u) }
    ensures { IsCheckedContent u at pointers kind bytes.now result }
{
    let mut marks = [0u8; SMALL];
    check_marked(bytes, u, at, pointers, kind, &mut marks)
}

fn check_large(
    bytes: &[u8],
    u: usize,
    at: usize,
    pointers: usize,
    kind: Kind,
) -> Result<usize, usize>
    requires usable { (480 ≤ u) × (u ≤ 65536) × (u ≤ length bytes.now) }
    requires room { (at + 8 ≤ pointers) × (pointers + 2 * u16_at bytes.now (at + 3) ≤ u) }
    ensures { IsCheckedContent u at pointers kind bytes.now result }
{
    let mut marks = [0u8; LARGE];
    check_marked(bytes, u, at, pointers, kind, &mut marks)
}

// Wipes all marks.
fn wipe(marks: &mut [u8])
    ensures { AreMarks marks.new [] [] }
{
    marks.fill(0);
}

// Checks the content of a page with these marks, which are wiped first.
fn check_marked(
    bytes: &[u8],
    u: usize,
    at: usize,
    pointers: usize,
    kind: Kind,
    marks: &mut [u8],
) -> Result<usize, usize>
    requires usable { (480 ≤ u) × (u ≤ 65536) × (u ≤ length bytes.now) }
    requires room { (at + 8 ≤ pointers) × (pointers + 2 * u16_at bytes.now (at + 3) ≤ u) }
    requires marks { u ≤ length marks.old }
    ensures { IsCheckedContent u at pointers kind bytes.now result }
{
    wipe(marks);
    let count = usize::from(get_u16(bytes, at + 3));
    let content = content_start(bytes, at);
    let cells = match mark_cells(bytes, u, kind, pointers, count, marks) {
        Ok(cells) => cells,
        Err(start) => return Err(start),
    };
    let blocks = match mark_blocks(bytes, u, content, get_u16(bytes, at + 1), marks) {
        Ok(blocks) => blocks,
        Err(start) => return Err(start),
    };
    if let Some(byte) = shared_byte(marks, u) {
        return Err(byte);
    }
    if !are_fragments(bytes[at + 7], u, content, cells + blocks) {
        return Err(at + 7);
    }
    Ok(cells)
}

// Whether so many fragment bytes may be, and are what the cells and freeblocks leave of the content.
fn are_fragments(fragments: u8, u: usize, content: usize, taken: usize) -> bool
    requires { content + taken < 2 ^ 63 }
    ensures { result ≡ (nat_le fragments 60 && content + taken + fragments == u) }
{
    fragments <= 60 && content + taken + usize::from(fragments) == u
}
