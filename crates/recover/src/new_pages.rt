// The pages that a new database begins with.
//
// The bytes that page 1 begins with; all others of it are zero, and so are those of all other pages:
//
//     0    the text that every database begins with, 16 bytes
//     16   the page size, 2 bytes, 1 for 65536
//     18   the versions, 3 and 3, and the reserved bytes, 0
//     21   the payload fractions, 64, 32 and 32
//     24   the change counter, 1
//     28   the size in pages, 1 or 16
//     44   the schema format, 4
//     56   the text encoding, 1
//     92   what the change counter was when the size was written, 1
//     100  for tables an empty leaf: its kind, 13, at 105 where its cells begin, 2 bytes, 0 for 65536
ghost use Rattle.std.specs.Prelude.{◌≡◌, ◌≤◌, length};
ghost use Rattle.recover.specs.NewPages.{new_count, new_first_page};

use crate::founding::wipe;
use crate::setup::StoreKind;

/// How many bytes of page 1 aren't zero throughout.
const FRONT_SIZE: usize = 108;

/// These bytes, but for those that go by the page size and by what the database holds.
const FRONT: &[u8; FRONT_SIZE] = b"SQLite format 3\0\
\0\0\x03\x03\0\x40\x20\x20\0\0\0\x01\0\0\0\0\0\0\0\0\0\0\0\0\0\0\0\0\0\0\0\x04\0\0\0\0\
\0\0\0\0\0\0\0\x01\0\0\0\0\0\0\0\0\0\0\0\0\0\0\0\0\0\0\0\0\0\0\0\0\0\0\0\0\0\0\0\0\0\0\0\x01\0\0\0\0\
\0\0\0\0\0\0\0\0";

/// How many pages a new database has.
pub(crate) fn new_count(kind: StoreKind) -> u32
    ensures value { result ≡ new_count kind }
    ensures some { 1 ≤ result }
{
    match kind {
        StoreKind::Pages => 16,
        StoreKind::Tables => 1,
    }
}

/// Lays page 1 of a new database.
#[tactic(auto, unfolding(crate::specs::NewPages::new_first_page))]
pub(crate) fn lay_first_page(kind: StoreKind, to: &mut [u8])
    requires { 108 ≤ length to.old }
    ensures { to.new ≡ new_first_page kind (length to.old) }
{
    let page_size = to.len();
    to[..FRONT_SIZE].copy_from_slice(FRONT);
    wipe(&mut to[FRONT_SIZE..]);
    to[16] = (page_size / 256 % 256) as u8;
    to[17] = (page_size / 65536 % 256) as u8;
    match kind {
        StoreKind::Pages => to[31] = 16,
        StoreKind::Tables => {
            to[31] = 1;
            to[100] = 13;
            to[105] = (page_size / 256 % 256) as u8;
        }
    }
}
