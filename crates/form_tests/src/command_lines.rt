use disk_face::Word;
use std::alloc::{AllocError, Global};
use std::test::Fail;
use words::{Pages, Request, read_words};

/// The words of a line, in which a blank stands between each two.
fn words_of(alloc: Global, line: &[u8]) -> Result<Vec<Word>, AllocError> {
    let mut words = Vec::new(alloc);
    for word in line.split(|byte| *byte == b' ') {
        words.push(Word::of(alloc, word)?)?;
    }
    Ok(words)
}

/// Page lines on the database of this path.
fn on(path: &[u8], limit: u32, page_size: u32) -> Option<Request<'_>> {
    Some(Request::Pages(Pages {
        path: Some(path),
        limit,
        page_size,
    }))
}

/// Page lines on pages in memory.
fn in_memory(limit: u32, page_size: u32) -> Option<Request<'static>> {
    Some(Request::Pages(Pages {
        path: None,
        limit,
        page_size,
    }))
}

/// A check of the database of this path.
fn checked(path: &[u8]) -> Option<Request<'_>> {
    Some(Request::Check { path })
}

#[test]
fn words_and_what_they_ask_for(rt: HostRuntime) -> Result<(), Fail> {
    let rows: [(&[u8], Option<Request>); 78] = [
        (b"pages", in_memory(1000, 4096)),
        (b"pages --limit 9", in_memory(9, 4096)),
        (b"pages --page-size=512", in_memory(1000, 512)),
        (b"pages db", on(b"db", 1000, 4096)),
        (b"pages db --limit 4", on(b"db", 4, 4096)),
        (b"pages --limit 4 db", on(b"db", 4, 4096)),
        (b"pages --limit=4 db", on(b"db", 4, 4096)),
        (b"pages --limit 1 db", on(b"db", 1, 4096)),
        (b"pages --limit=1000000 db", on(b"db", 1000000, 4096)),
        (b"pages db --page-size 512", on(b"db", 1000, 512)),
        (b"pages --page-size=65536 db", on(b"db", 1000, 65536)),
        (b"pages --page-size 8192 db --limit=7", on(b"db", 7, 8192)),
        (b"pages -", on(b"-", 1000, 4096)),
        (b"pages --", in_memory(1000, 4096)),
        (b"pages -- --", on(b"--", 1000, 4096)),
        (b"pages -- -x", on(b"-x", 1000, 4096)),
        (b"pages --limit 4 -- --limit", on(b"--limit", 4, 4096)),
        (b"pages \xc3\xa4", on(b"\xc3\xa4", 1000, 4096)),
        (b"", None),
        (b"frob", None),
        (b"pages ", None),
        (b"pages a b", None),
        (b"pages a -- b", None),
        (b"pages -- a b", None),
        (b"pages -- ", None),
        (b"pages -x", None),
        (b"pages --help", None),
        (b"pages --limit=4 --limit 4 db", None),
        (b"pages --page-size 512 --page-size 512", None),
        (b"pages --limit", None),
        (b"pages --page-size", None),
        (b"pages db --limit", None),
        (b"pages --limit --", None),
        (b"pages --limit -- 4", None),
        (b"pages --limit=", None),
        (b"pages --limit=4x db", None),
        (b"pages --limit 0", None),
        (b"pages --limit 0 db", None),
        (b"pages --limit 04 db", None),
        (b"pages --limit +4 db", None),
        (b"pages --limit -4 db", None),
        (b"pages --limit 1000001 db", None),
        (b"pages --limit 4294967300 db", None),
        (b"pages --limit 18446744073709551620 db", None),
        (b"pages --page-size 0 db", None),
        (b"pages --page-size 256 db", None),
        (b"pages --page-size 500 db", None),
        (b"pages --page-size 513 db", None),
        (b"pages --page-size=131072 db", None),
        (b"pages --page-size=4294971392 db", None),
        (b"pages --limit4 db", None),
        (b"pages --pagesize 512 db", None),
        (b"pages \xff", None),
        (b"--limit 4 pages", None),
        (b"check db", checked(b"db")),
        (b"check -", checked(b"-")),
        (b"check -- -x", checked(b"-x")),
        (b"check -- --", checked(b"--")),
        (b"check -- --limit", checked(b"--limit")),
        (b"check \xc3\xa4", checked(b"\xc3\xa4")),
        (b"check", None),
        (b"check --", None),
        (b"check ", None),
        (b"check -- ", None),
        (b"check a b", None),
        (b"check a -- b", None),
        (b"check -x", None),
        (b"check --limit", None),
        (b"check --limit 5 a", None),
        (b"check --limit=5 a", None),
        (b"check a --limit 5", None),
        (b"check --page-size 512 a", None),
        (b"check --page-size=512 a", None),
        (b"check --limit 0 a", None),
        (b"check --help", None),
        (b"check \xff", None),
        (b"checks a", None),
        (b"Check a", None),
    ];
    for (line, expected) in rows {
        let words = words_of(rt.alloc(), line)?;
        assert_eq!(rt; read_words(&words), expected);
    }
    assert_eq!(rt; read_words(&[]), None);
    Ok(())
}
