// What the calls write, and read back.
use crate::logs::{
    FIRST_HEAD, FIRST_HEADER, LITTLE_HEAD, LITTLE_HEADER, NEXT_HEAD, NEXT_HEADER, SECOND_HEAD,
    WIDE_HEAD, WIDE_HEADER, WIDE_OTHER,
};
use crate::trial::Trial;
use disk_face::{Failed, File};
use std::alloc::{AllocError, Global};

/// A frame of a page that one byte fills, behind some bytes.
fn add_frame(log: &mut Vec<u8>, head: &[u8], fill: u8, count: usize) -> Result<(), AllocError> {
    log.extend_from_slice(head)?;
    for _ in 0..count {
        log.extend_from_slice(&[fill; 512])?;
    }
    Ok(())
}

/// A log with two frames of pages that 7 and 8 fill.
fn two_frames(alloc: Global) -> Result<Vec<u8>, AllocError> {
    let mut log = FIRST_HEADER.to_vec(alloc)?;
    add_frame(&mut log, &FIRST_HEAD, 7, 1)?;
    add_frame(&mut log, &SECOND_HEAD, 8, 1)?;
    Ok(log)
}

/// A log with one frame of a page that a byte fills.
fn one_frame(
    alloc: Global,
    header: &[u8],
    head: &[u8],
    fill: u8,
    count: usize,
) -> Result<Vec<u8>, AllocError> {
    let mut log = header.to_vec(alloc)?;
    add_frame(&mut log, head, fill, count)?;
    Ok(log)
}

/// Whether the file of these logs holds just these bytes.
fn is_written(trial: Result<Trial, Failed>, file: File, log: Result<Vec<u8>, AllocError>) -> bool {
    match trial {
        Ok(trial) => holds(&trial, file, log),
        Err(_) => false,
    }
}

fn holds(trial: &Trial, file: File, log: Result<Vec<u8>, AllocError>) -> bool {
    match log {
        Ok(log) => trial.holds(file, &log),
        Err(_) => false,
    }
}

/// Two frames, of which the second ends a commit.
fn seals(trial: &mut Trial) -> Result<(), Failed> {
    trial.append(1, &[7; 512], 0)?;
    trial.append(2, &[8; 512], 2)?;
    trial.seal()
}

/// Log 1 after that.
fn sealed(alloc: Global) -> Result<Trial, Failed> {
    let mut trial = Trial::new(alloc, 1, &FIRST_HEADER, &LITTLE_HEADER, None)?;
    match seals(&mut trial) {
        Ok(()) => Ok(trial),
        Err(Failed) => Err(Failed),
    }
}

#[test]
fn two_frames_are_written_as_another_program_writes_them(rt: HostRuntime) {
    assert!(rt; is_written(sealed(rt.alloc()), File::Log1, two_frames(rt.alloc())));
}

fn are_accepted(alloc: Global) -> bool {
    match sealed(alloc) {
        Ok(mut trial) => trial.accepts(alloc, [1, 2], 2) == Ok(true),
        Err(_) => false,
    }
}

#[test]
fn they_are_accepted(rt: HostRuntime) {
    assert!(rt; are_accepted(rt.alloc()));
}

fn reads(trial: &mut Trial, frame: u32, fill: u8) -> bool {
    let mut page = [0; 512];
    trial.read(1, frame, &mut page).is_ok() && page == [fill; 512]
}

fn reads_both(alloc: Global) -> bool {
    match sealed(alloc) {
        Ok(mut trial) => reads(&mut trial, 1, 7) && reads(&mut trial, 2, 8),
        Err(_) => false,
    }
}

#[test]
fn the_page_of_a_frame_is_read(rt: HostRuntime) {
    assert!(rt; reads_both(rt.alloc()));
}

/// The logs after a switch.
fn switched(alloc: Global) -> Result<Trial, Failed> {
    let mut trial = Trial::new(alloc, 1, &FIRST_HEADER, &LITTLE_HEADER, None)?;
    match trial.switch(9) {
        Ok(()) => Ok(trial),
        Err(Failed) => Err(Failed),
    }
}

#[test]
fn a_switch_writes_the_next_header(rt: HostRuntime) {
    assert!(rt;
        is_written(
            switched(rt.alloc()),
            File::Log2,
            NEXT_HEADER.to_vec(rt.alloc())
        )
    );
}

fn after_a_switch(alloc: Global) -> Result<Trial, Failed> {
    let mut trial = switched(alloc)?;
    match trial.append(3, &[9; 512], 3) {
        Ok(()) => Ok(trial),
        Err(Failed) => Err(Failed),
    }
}

#[test]
fn frames_go_to_the_new_log_after_it(rt: HostRuntime) {
    let log = one_frame(rt.alloc(), &NEXT_HEADER, &NEXT_HEAD, 9, 1);
    assert!(rt; is_written(after_a_switch(rt.alloc()), File::Log2, log));
}

fn little(alloc: Global) -> Result<Trial, Failed> {
    let mut trial = Trial::new(alloc, 2, &FIRST_HEADER, &LITTLE_HEADER, None)?;
    match trial.append(4, &[5; 512], 6) {
        Ok(()) => Ok(trial),
        Err(Failed) => Err(Failed),
    }
}

#[test]
fn a_log_of_the_other_byte_order_goes_on_in_it(rt: HostRuntime) {
    let log = one_frame(rt.alloc(), &LITTLE_HEADER, &LITTLE_HEAD, 5, 1);
    assert!(rt; is_written(little(rt.alloc()), File::Log2, log));
}

fn wide(alloc: Global, page: &[u8]) -> Result<Trial, Failed> {
    let mut trial = Trial::new(alloc, 1, &WIDE_HEADER, &WIDE_OTHER, None)?;
    match trial.append(3, page, 3) {
        Ok(()) => Ok(trial),
        Err(Failed) => Err(Failed),
    }
}

fn is_wide(alloc: Global) -> bool {
    match one_frame(alloc, b"", b"", 6, 128) {
        Ok(page) => is_written(
            wide(alloc, &page),
            File::Log1,
            one_frame(alloc, &WIDE_HEADER, &WIDE_HEAD, 6, 128),
        ),
        Err(_) => false,
    }
}

#[test]
fn the_widest_page_is_written_too(rt: HostRuntime) {
    assert!(rt; is_wide(rt.alloc()));
}
