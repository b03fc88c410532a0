// Runs of the whole program over page lines in memory, from sources to sinks in memory.
ghost use Rattle.std.specs.Prelude.{◌≡◌, false};

use crate::top::top;
use disk_face::{Failed, Source, Word};
use disk_mem::{FixedSalts, MemDisk, MemSink, MemSource};
use std::alloc::{AllocError, Global};
use std::process::Abort;
use std::test::Fail;

/// One run, and what it has to come to.
#[derive(Drop)]
struct Row {
    /// The words of the command line, with a blank between each two.
    words: &'static [u8],
    script: &'static [u8],
    /// The most bytes that a call of the source gives, and that one of the sink takes.
    piece: usize,
    /// Which call of the source fails, from 1.
    source_fails: Option<u64>,
    /// Which call of the sink fails, from 1.
    sink_fails: Option<u64>,
    status: u8,
    written: &'static [u8],
}

/// Runs with ample memory and no files, and gives the status and what was written.
fn run(
    alloc: Global,
    words: &[u8],
    script: Vec<u8>,
    piece: usize,
    source_fails: Option<u64>,
    sink_fails: Option<u64>,
) -> Result<(u8, MemSink), AllocError> {
    let mut disk = empty_disk(alloc);
    let mut source = MemSource::new(script, piece.max(1), source_fails);
    let mut sink = MemSink::new(alloc, piece.max(1), sink_fails);
    let status = run_over(alloc, words, &mut disk, &mut source, &mut sink)?;
    Ok((status, sink))
}

/// Runs with ample memory over this disk, source and sink, and gives the status.
fn run_over(
    alloc: Global,
    words: &[u8],
    disk: &mut MemDisk,
    source: &mut MemSource,
    sink: &mut MemSink,
) -> Result<u8, AllocError>
    requires { disk.old.attached ≡ false }
{
    let words = words_in(alloc, words)?;
    let mut salts = FixedSalts::new(Vec::new(alloc));
    Ok(top(alloc, &words, disk, source, sink, &mut salts))
}

/// The words of a line, in which a blank stands between each two.
fn words_in(alloc: Global, line: &[u8]) -> Result<Vec<Word>, AllocError> {
    let mut words = Vec::new(alloc);
    for word in line.split(|byte| *byte == b' ') {
        words.push(Word::of(alloc, word)?)?;
    }
    Ok(words)
}

/// Three empty files.
fn empty_disk(alloc: Global) -> MemDisk
    ensures { result.attached ≡ false }
{
    MemDisk::new(
        alloc,
        Vec::new(alloc),
        Vec::new(alloc),
        Vec::new(alloc),
        Vec::new(alloc),
    )
}

/// A run of `pages` that meets no fault.
fn plain(script: &'static [u8], status: u8, written: &'static [u8]) -> Row {
    Row {
        words: b"pages",
        script,
        piece: 4096,
        source_fails: None,
        sink_fails: None,
        status,
        written,
    }
}

const SNAPSHOTS: &[u8] =
    b"1: BEGIN\n2: BEGIN\n1: READ 2\n2: WRITE 2 7\n2: COMMIT\n1: WRITE 3 9\n1: READ 2\n1: COMMIT\n1: READ 2\n1: ROLLBACK\n1: BEGIN\n1: READ 2\n1: READ 3\n";

const SNAPSHOTS_REPLIES: &[u8] =
    b"1: ok\n2: ok\n1: byte 0\n2: ok\n2: commit 1\n1: ok\n1: byte 0\n1: error busy snapshot page 2 commit 1\n1: error must roll back\n1: ok\n1: ok\n1: byte 7\n1: byte 0\n";

#[test]
fn scripts_and_faults(rt: HostRuntime) -> Result<(), Fail> {
    let rows = [
        plain(b"", 0, b""),
        plain(b"1: READ 17", 1, b"script refused at line 1\n"),
        plain(b"2: WRITE 2 7", 0, b"2: error no transaction\n"),
        plain(SNAPSHOTS, 0, SNAPSHOTS_REPLIES),
        // One byte a call, on both sides.
        Row {
            piece: 1,
            ..plain(SNAPSHOTS, 0, SNAPSHOTS_REPLIES)
        },
        // Empty lines and comments get no reply, but they count. A CR before the LF is dropped, and one at the end isn't.
        plain(
            b"# all of it\r\n\r\n1: BEGIN\r\n\n1: READ 2\r",
            1,
            b"1: ok\nscript refused at line 5\n",
        ),
        plain(
            b"0: LOGS\n0: CHECKPOINT\n0: STEP\n",
            0,
            b"0: log 1 frames 0 other done\n0: idle\n0: idle\n",
        ),
        plain(
            b"1: BEGIN\n#\xff\n1: READ 2\n",
            1,
            b"1: ok\nscript refused at line 2\n",
        ),
        Row {
            words: b"frob",
            ..plain(SNAPSHOTS, 2, b"words refused\n")
        },
        Row {
            words: b"pages a b",
            ..plain(SNAPSHOTS, 2, b"words refused\n")
        },
        Row {
            words: b"pages --limit 0 db",
            ..plain(SNAPSHOTS, 2, b"words refused\n")
        },
        // A check reads no line, whatever the source has.
        Row {
            words: b"check db",
            ..plain(b"no line", 0, b"pages 1 trees 1 free 0\n")
        },
        Row {
            words: b"check",
            ..plain(SNAPSHOTS, 2, b"words refused\n")
        },
        Row {
            words: b"frob",
            sink_fails: Some(1),
            ..plain(SNAPSHOTS, 4, b"")
        },
        // The source fails at once, in the middle of a line, and where the script is all given.
        Row {
            source_fails: Some(1),
            ..plain(SNAPSHOTS, 3, b"source failed\n")
        },
        Row {
            piece: 12,
            source_fails: Some(2),
            ..plain(b"1: BEGIN\n2: BEGIN\n", 3, b"1: ok\nsource failed\n")
        },
        Row {
            source_fails: Some(2),
            ..plain(b"1: BEGIN\n2: BEGIN", 3, b"1: ok\nsource failed\n")
        },
        // The sink fails at once, in the middle of a reply, and in the last line of a refused script.
        Row {
            sink_fails: Some(1),
            ..plain(SNAPSHOTS, 4, b"")
        },
        Row {
            piece: 4,
            sink_fails: Some(4),
            ..plain(b"1: BEGIN\n2: BEGIN\n", 4, b"1: ok\n2: o")
        },
        Row {
            piece: 6,
            sink_fails: Some(2),
            ..plain(b"17: BEGIN\n", 4, b"script")
        },
        // Both fail: the last line can't be written.
        Row {
            source_fails: Some(1),
            sink_fails: Some(1),
            ..plain(SNAPSHOTS, 4, b"")
        },
    ];
    for row in rows {
        let script = row.script.to_vec(rt.alloc())?;
        let (status, sink) = run(
            rt.alloc(),
            row.words,
            script,
            row.piece,
            row.source_fails,
            row.sink_fails,
        )?;
        assert_eq!(rt; sink.written(), row.written);
        assert_eq!(rt; status, row.status);
    }
    Ok(())
}

/// A comment with so many bytes, and its LF.
fn comment(alloc: Global, count: usize) -> Result<Vec<u8>, AllocError> {
    let mut line = vec![in alloc; b'#'; count]?;
    line.push(b'\n')?;
    Ok(line)
}

#[test]
fn limits(rt: HostRuntime) -> Result<(), Fail> {
    let longest = comment(rt.alloc(), 65_536)?;
    let (status, sink) = run(rt.alloc(), b"pages", longest, 65_536, None, None)?;
    assert_eq!(rt; sink.written(), b"".as_slice());
    assert_eq!(rt; status, 0);

    let longer = comment(rt.alloc(), 65_537)?;
    let (status, sink) = run(rt.alloc(), b"pages", longer, 65_536, None, None)?;
    assert_eq!(rt; sink.written(), b"script refused at line 1\n".as_slice());
    assert_eq!(rt; status, 1);

    // 256 lines of 65,536 bytes, their ends included.
    let line = comment(rt.alloc(), 65_535)?;
    for (rest, expected, written) in [
        (b"".as_slice(), 0, b"".as_slice()),
        (b"\n", 1, b"script refused at line 257\n"),
    ] {
        let mut script = Vec::new(rt.alloc());
        for _ in 0..256 {
            script.extend_from_slice(&line)?;
        }
        script.extend_from_slice(rest)?;
        let (status, sink) = run(rt.alloc(), b"pages", script, 65_536, None, None)?;
        assert_eq!(rt; sink.written(), written);
        assert_eq!(rt; status, expected);
    }
    Ok(())
}

/// How many bytes a source still gives.
fn left_in(source: &mut MemSource) -> usize {
    let mut piece = [0; 64];
    let mut left: usize = 0;
    for _ in 0..64 {
        match source.take(&mut piece) {
            Ok(count) => left = left.saturating_add(count),
            Err(Failed) => return 0,
        }
    }
    left
}

/// Twelve lines of eight bytes, of whose replies the one with this number fails. The source gives a piece of so many bytes at once, and
/// has to have so many left when it comes to that reply.
fn order(
    rt: &impl Abort,
    alloc: Global,
    piece: usize,
    fails: u64,
    left: usize,
) -> Result<(), Fail> {
    let mut script = Vec::new(alloc);
    for _ in 0..12 {
        script.extend_from_slice(b"0: STEP\n")?;
    }
    let mut disk = empty_disk(alloc);
    let mut source = MemSource::new(script, piece.max(1), None);
    let mut sink = MemSink::new(alloc, 64, Some(fails));
    let status = run_over(alloc, b"pages", &mut disk, &mut source, &mut sink)?;
    assert_eq!(rt; status, 4);
    assert_eq!(rt; left_in(&mut source), left);
    Ok(())
}

/// Each line is answered before the next one is taken: where a reply fails, the source hasn't been asked for more. Of lines that the
/// source gave at once, all are answered before it is asked again.
#[test]
fn replies_before_lines(rt: HostRuntime) -> Result<(), Fail> {
    order(&rt, rt.alloc(), 8, 1, 88)?;
    order(&rt, rt.alloc(), 8, 2, 80)?;
    order(&rt, rt.alloc(), 8, 12, 0)?;
    order(&rt, rt.alloc(), 16, 3, 64)?;
    order(&rt, rt.alloc(), 24, 3, 72)?;
    order(&rt, rt.alloc(), 24, 4, 48)
}

/// A transaction that reads and writes all pages, and reads them again.
#[test]
fn all_pages(rt: HostRuntime) -> Result<(), Fail> {
    let mut script = b"1: BEGIN\n".to_vec(rt.alloc())?;
    let mut replies = b"1: ok\n".to_vec(rt.alloc())?;
    for page in 2..17_u32 {
        let lines = format!(in rt.alloc();
            "1: READ {page}\n1: WRITE {page} {page}\n1: READ {page}\n"
        )?;
        script.extend_from_slice(lines.as_bytes())?;
        let told = format!(in rt.alloc(); "1: byte 0\n1: ok\n1: byte {page}\n")?;
        replies.extend_from_slice(told.as_bytes())?;
    }
    script.extend_from_slice(b"1: COMMIT\n")?;
    replies.extend_from_slice(b"1: commit 1\n")?;
    let (status, sink) = run(rt.alloc(), b"pages", script, 4096, None, None)?;
    assert_eq!(rt; sink.written(), replies.as_slice());
    assert_eq!(rt; status, 0);
    Ok(())
}

/// A thousand commits, each of which is read by the next transaction.
#[test]
fn a_thousand_commits(rt: HostRuntime) -> Result<(), Fail> {
    let mut script = Vec::new(rt.alloc());
    let mut replies = Vec::new(rt.alloc());
    for commit in 1..1001_u32 {
        let byte = commit % 256;
        let lines = format!(in rt.alloc();
            "7: BEGIN\n7: READ 16\n7: WRITE 16 {byte}\n7: COMMIT\n"
        )?;
        script.extend_from_slice(lines.as_bytes())?;
        let before = (commit - 1) % 256;
        let told = format!(in rt.alloc(); "7: ok\n7: byte {before}\n7: ok\n7: commit {commit}\n")?;
        replies.extend_from_slice(told.as_bytes())?;
    }
    let (status, sink) = run(rt.alloc(), b"pages", script, 4096, None, None)?;
    assert_eq!(rt; sink.written(), replies.as_slice());
    assert_eq!(rt; status, 0);
    Ok(())
}

/// More lines than 16 bits count, of which the last is refused.
#[test]
fn many_lines(rt: HostRuntime) -> Result<(), Fail> {
    let mut script = Vec::new(rt.alloc());
    let mut replies = Vec::new(rt.alloc());
    for _ in 0..70_000 {
        script.extend_from_slice(b"0: STEP\n")?;
        replies.extend_from_slice(b"0: idle\n")?;
    }
    script.extend_from_slice(b"0: STOP\n")?;
    replies.extend_from_slice(b"script refused at line 70001\n")?;
    let (status, sink) = run(rt.alloc(), b"pages", script, 65_536, None, None)?;
    assert_eq!(rt; sink.written(), replies.as_slice());
    assert_eq!(rt; status, 1);
    Ok(())
}
