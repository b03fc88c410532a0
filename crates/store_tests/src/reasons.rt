// The text of each fault of an opening, as it is told to users.
use check_spec::CheckFault;
use db_header::HeaderFault;
use disk_face::File;
use recover::LookFault;
use std::alloc::{AllocError, Global};
use store::{OpenFault, append_reason};

const FAULTS: &[OpenFault] = &[
    OpenFault::Look(LookFault::Header(HeaderFault::NotADb)),
    OpenFault::Look(LookFault::Header(HeaderFault::PageSize(768))),
    OpenFault::Look(LookFault::Header(HeaderFault::Versions(1, 2))),
    OpenFault::Look(LookFault::Header(HeaderFault::Utf16(2))),
    OpenFault::Look(LookFault::Header(HeaderFault::AutoVacuum(3))),
    OpenFault::Look(LookFault::Header(HeaderFault::Reserved(33))),
    OpenFault::Look(LookFault::Header(HeaderFault::Format(5))),
    OpenFault::Look(LookFault::Header(HeaderFault::TooLarge { pages: 262145 })),
    OpenFault::Look(LookFault::WalMode),
    OpenFault::Look(LookFault::HotJournal),
    OpenFault::Look(LookFault::ForeignLog {
        file: File::Log1,
        at: 12,
    }),
    OpenFault::Look(LookFault::ForeignLog {
        file: File::Log2,
        at: 4,
    }),
    OpenFault::Look(LookFault::Missing { page: 9 }),
    OpenFault::NotPages { pages: 2, byte: 0 },
    OpenFault::Check(CheckFault::Page { page: 1, at: 28 }),
    OpenFault::Check(CheckFault::Schema { rowid: -7 }),
    OpenFault::Check(CheckFault::Order { page: 3, cell: 0 }),
    OpenFault::Check(CheckFault::Twice { page: 5 }),
    OpenFault::Check(CheckFault::Lost { page: 2 }),
    OpenFault::Disk,
    OpenFault::Memory,
];

const REASONS: &[u8] = b"not a database
page size 768
versions 1 2
encoding 2
auto-vacuum 3
reserved 33
format 5
too large 262145
wal mode
hot journal
foreign log 1 at 12
foreign log 2 at 4
missing page 9
not a page store
page 1 at 28
schema row -7
order page 3 cell 0
twice page 5
lost page 2
disk failed
out of memory
";

#[test]
fn each_fault_of_an_opening_has_its_text(rt: HostRuntime) -> Result<(), AllocError> {
    assert_eq!(rt; reasons(rt.alloc())?.as_slice(), REASONS);
    Ok(())
}

fn reasons(alloc: Global) -> Result<Vec<u8>, AllocError> {
    let mut text = Vec::new(alloc);
    for fault in FAULTS {
        append_reason(fault, &mut text)?;
        text.push(b'\n')?;
    }
    Ok(text)
}
