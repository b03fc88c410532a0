// What stands before the content of a page: the header and the cell pointers.
ghost use Rattle.std.specs.Prelude.{◌≡◌, ◌+◌, ◌*◌, ◌≤◌, length};
ghost use Rattle.page_spec.specs.Bytes.{u16_at};
ghost use Rattle.node_spec.specs.Layout.{content_start};
ghost use Rattle.node_spec.specs.Faults.{first_fault, pointer_fault, front_fault};

use be_fields::get_u16;

/// Where the cell content starts, by the header at `at`.
#[tactic(auto, unfolding(node_spec::specs::Layout::content_start))]
pub fn content_start(bytes: &[u8], at: usize) -> usize
    requires { at + 8 ≤ length bytes.now }
    ensures start { result ≡ content_start bytes.now at }
    ensures most { result ≤ 65536 }
{
    match get_u16(bytes, at + 5) {
        0 => 65536,
        start => usize::from(start),
    }
}

// The first pointer that leads before the content.
fn bad_pointer(bytes: &[u8], content: usize, pointers: usize, count: usize) -> Option<usize>
    requires { pointers + 2 * count ≤ length bytes.now }
    ensures { result ≡ first_fault count (pointer_fault content bytes.now pointers) }
{
    for i in 0..count {
        let place = pointers + 2 * i;
        if usize::from(get_u16(bytes, place)) < content {
            return Some(place);
        }
    }
    None
}

/// The first field before the content that breaks the text of a page whose header stands at `at` and its pointers at
/// `pointers`.
#[tactic(auto, unfolding(node_spec::specs::Faults::front_fault))]
pub(crate) fn bad_front(bytes: &[u8], u: usize, at: usize, pointers: usize) -> Option<usize>
    requires { (at + 8 ≤ pointers) × (pointers ≤ 112) × (480 ≤ u) × (u ≤ length bytes.now) }
    ensures { result ≡ front_fault u at pointers bytes.now }
{
    let count = usize::from(get_u16(bytes, at + 3));
    let end = pointers + 2 * count;
    if end > u {
        return Some(at + 3);
    }
    let content = content_start(bytes, at);
    if content < end || content > u {
        return Some(at + 5);
    }
    bad_pointer(bytes, content, pointers, count)
}
