// What a commit makes of page 1: the change counter, the size in pages and the counter that the size is valid for are those that SQLite
// sets. The bytes are of a file of SQLite's before and after such a commit (`bench/first_pages.py`).
ghost use Rattle.std.specs.Prelude.{◌≡◌, ◌≤◌, ◌∷◌, [], ◌+◌, length, All, IfOk, OnOk};
ghost use Rattle.memory_engine.specs.Plain.{PlainLive, newest_of};

use acts::{Act, Told, play};
use disk_face::Bytes;
use engine_spec::Receipt;
use memory_engine::Plain;
use page_face::Engine;
use page_lines::Raw;
use std::alloc::{AllocError, Global};
use std::test::Fail;

const BEFORE: &[u8; 100] =
    b"\x53\x51\x4c\x69\x74\x65\x20\x66\x6f\x72\x6d\x61\x74\x20\x33\x00\x02\x00\x01\x01\x00\x40\x20\x20\x00\x00\x00\x36\x00\x00\x00\x10\x00\x00\x00\x00\x00\x00\x00\x00\x00\x00\x00\x01\x00\x00\x00\x04\x00\x00\x00\x00\x00\x00\x00\x00\x00\x00\x00\x01\x00\x00\x00\x00\x00\x00\x00\x00\x00\x00\x00\x00\x00\x00\x00\x00\x00\x00\x00\x00\x00\x00\x00\x00\x00\x00\x00\x00\x00\x00\x00\x00\x00\x00\x00\x36\x00\x2e\x63\x01";

const AFTER: &[u8; 100] =
    b"\x53\x51\x4c\x69\x74\x65\x20\x66\x6f\x72\x6d\x61\x74\x20\x33\x00\x02\x00\x01\x01\x00\x40\x20\x20\x00\x00\x00\x37\x00\x00\x00\x10\x00\x00\x00\x00\x00\x00\x00\x00\x00\x00\x00\x01\x00\x00\x00\x04\x00\x00\x00\x00\x00\x00\x00\x00\x00\x00\x00\x01\x00\x00\x00\x00\x00\x00\x00\x00\x00\x00\x00\x00\x00\x00\x00\x00\x00\x00\x00\x00\x00\x00\x00\x00\x00\x00\x00\x00\x00\x00\x00\x00\x00\x00\x00\x37\x00\x2e\x63\x01";

// A page of 512 bytes that begins with these 100.
fn first_page(alloc: Global, header: &[u8; 100]) -> Result<Bytes, AllocError>
    ensures { IfOk result (λ page. length page ≡ 512) }
{
    let mut page = [0; 512];
    page[..100].copy_from_slice(header);
    Bytes::of(alloc, &page)
}

// That page and 15 pages of zeros.
fn store_pages(alloc: Global, header: &[u8; 100]) -> Result<Vec<Bytes>, AllocError>
    ensures count { IfOk result (λ pages. length pages.items ≡ 16) }
    ensures whole { IfOk result (λ pages. All (λ page. length page ≡ 512) pages.items) }
{
    let mut pages = Vec::new(alloc);
    pages.push(first_page(alloc, header)?)?;
    while pages.len() < 16 {
        push_zeros(alloc, &mut pages)?;
    }
    Ok(pages)
}

// Adds a page of zeros.
fn push_zeros(alloc: Global, pages: &mut Vec<Bytes>) -> Result<(), AllocError>
    requires { All (λ page. length page ≡ 512) pages.old.items }
    ensures count { OnOk result (length pages.new.items ≡ length pages.old.items + 1) }
    ensures whole { OnOk result (All (λ page. length page ≡ 512) pages.new.items) }
{
    let page = Bytes::of(alloc, &[0; 512])?;
    pages.push(page)?;
    Ok(())
}

// An engine over these pages.
fn engine_over(alloc: Global, header: &[u8; 100]) -> Result<Plain<Raw>, AllocError>
    ensures live { IfOk result (λ plain. PlainLive plain []) }
    ensures pages { IfOk result (λ plain. length (newest_of plain) ≡ 16) }
    ensures page_size { IfOk result (λ plain. plain.page_size ≡ 512) }
{
    let pages = store_pages(alloc, header)?;
    let plain = Plain::new(alloc, pages)?;
    Ok(plain)
}

// The newest page 1.
fn read_first(engine: &mut Plain<Raw>, page: &mut [u8])
    requires live { PlainLive engine.old [] }
    requires room { length page.old ≡ engine.old.page_size }
    requires some { 1 ≤ length (newest_of engine.old) }
{
    let pin = engine.begin();
    let _ = engine.fetch(&pin, 1, page);
    engine.end(pin);
}

// Writes page 2 and commits.
fn commit_one(alloc: Global, engine: &mut Plain<Raw>) -> Result<bool, AllocError>
    requires live { PlainLive engine.old [] }
    requires pages { 16 ≤ length (newest_of engine.old) }
    ensures live { PlainLive engine.new [] }
    ensures pages { 16 ≤ length (newest_of engine.new) }
    ensures page_size { engine.new.page_size ≡ engine.old.page_size }
{
    let acts = [
        Act::Begin { session: 1 },
        Act::Write {
            session: 1,
            page: 2,
            byte: 7,
        },
        Act::Commit { session: 1 },
    ];
    let answers = play(alloc, engine, &acts)?;
    Ok(answers.last() == Some(&Told::Done(Receipt::At(1))))
}

#[test]
fn a_commit_counts_in_page_1_as_sqlite_does(rt: HostRuntime) -> Result<(), Fail> {
    let mut engine = engine_over(rt.alloc(), BEFORE)?;
    let mut page = [0; 512];
    assert_eq!(rt; commit_one(rt.alloc(), &mut engine), Ok(true));
    read_first(&mut engine, &mut page);
    assert!(rt; page.starts_with(AFTER.as_slice()));
    Ok(())
}
