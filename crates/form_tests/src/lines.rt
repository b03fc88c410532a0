use script::{Act2, Form, Line, line_text, read_line};
use std::test::Fail;

#[test]
fn lines_and_their_meaning(rt: HostRuntime) -> Result<(), Fail> {
    let rows: [(&[u8], Option<Line>); 18] = [
        (b"1: BEGIN", Some(Line::Page(Act2::Begin(1)))),
        (b"15: READ 16", Some(Line::Page(Act2::Read(15, 16)))),
        (b"2: WRITE 2 0", Some(Line::Page(Act2::Write(2, 2, 0)))),
        (
            b"10: WRITE 10 255",
            Some(Line::Page(Act2::Write(10, 10, 255))),
        ),
        (b"3: COMMIT", Some(Line::Page(Act2::Commit(3)))),
        (b"3: ROLLBACK", Some(Line::Page(Act2::Rollback(3)))),
        (b"0: CHECKPOINT", Some(Line::Copy)),
        (b"0: STEP", Some(Line::Step)),
        (b"0: LOGS", Some(Line::Logs)),
        (b"", Some(Line::Empty)),
        (b"# what follows", Some(Line::Empty)),
        (b"#\xff", None),
        (b"#\0", None),
        (b"1: READ 17", None),
        (b"1: WRITE 2 256", None),
        (b"16: BEGIN", None),
        (b"01: BEGIN", None),
        (b" ", None),
    ];
    for (text, expected) in rows {
        assert_eq!(rt; read_line(text, Form::Pages), expected);
    }
    Ok(())
}

#[test]
fn texts_of_lines(rt: HostRuntime) -> Result<(), Fail> {
    let rows: [(&[u8], &[u8]); 6] = [
        (b"1: BEGIN\n", b"1: BEGIN"),
        (b"1: BEGIN\r\n", b"1: BEGIN"),
        (b"1: BEGIN\r\r\n", b"1: BEGIN\r"),
        (b"1: BEGIN", b"1: BEGIN"),
        (b"1: BEGIN\r", b"1: BEGIN\r"),
        (b"\n", b""),
    ];
    for (raw, expected) in rows {
        assert_eq!(rt; line_text(raw), expected);
    }
    Ok(())
}
