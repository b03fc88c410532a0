// A frame as it is laid on the stack and handed to one write.
//
// Its 24 bytes of 4-byte numbers, most significant byte first, stand before its page:
//
//     0   the number of its page
//     4   the size of the database in pages after the commit that it ends, 0 where it ends none
//     8   the salts of the log's header, twice 4 bytes
//     16  the checksum, twice 4 bytes: it goes on over the first 8 bytes and the page
ghost use Rattle.std.specs.Prelude.{◌≡◌, ◌+◌, ◌<◌, ◌≤◌, true, length, is_ok, IsTrue};
ghost use Rattle.disk_face.specs.Faults.{Counts};
ghost use Rattle.disk_face.specs.Stays.{OnlyWrites};
ghost use Rattle.disk_face.specs.Told.{IsInside};
ghost use Rattle.page_spec.specs.Header.{is_page_size};
ghost use Rattle.log_spec.specs.Accept.{Frame, sum_after};
ghost use Rattle.wal_frames.specs.Front.{words_of, fields_for};
ghost use Rattle.log_pair.specs.Frame.{IsOf, WritesFrame};

use be_fields::put_u32;
use disk_face::{Disk, Failed, File};
use wal_frames::{LogHeader, Sum, sum_step};

/// How many bytes stand before the page in a frame.
pub(crate) const HEAD_SIZE: usize = 24;

/// The most bytes of a page whose frame is laid in the small room.
const SMALL_PAGE: usize = 4096;

/// The most bytes of a page.
const LARGE_PAGE: usize = 65536;

/// A frame to be written: where, under which header of its log, and behind which checksum.
#[derive(Clone, Copy)]
pub(crate) struct NewFrame {
    pub(crate) file: File,
    pub(crate) at: u64,
    pub(crate) header: LogHeader,
    pub(crate) sum: Sum,
    pub(crate) page: u32,
    pub(crate) size: u32,
}

/// How many bytes each frame of a log has.
#[tactic(auto, unfolding(page_spec::specs::Header::is_page_size))]
fn frame_size(header: &LogHeader) -> usize
    requires { IsTrue (is_page_size header.now.page_size) }
    ensures value { result ≡ 24 + header.now.page_size }
    ensures within { result ≤ 65560 }
{
    HEAD_SIZE + header.page_size as usize
}

impl NewFrame {
    /// Lays the frame, and says the checksum behind it.
    fn lay(&self, bytes: &[u8], frame: &mut [u8]) -> Sum
        requires legal { IsTrue (is_page_size self.now.header.page_size) }
        requires page { 0 < self.now.page }
        requires bytes { length bytes.now ≡ self.now.header.page_size }
        requires room { length frame.old ≡ 24 + self.now.header.page_size }
        ensures frame { IsOf self.now bytes.now frame.new }
        ensures sum { words_of result ≡ sum_after (fields_for self.now.header) (words_of self.now.sum) frame.new }
    {
        frame[HEAD_SIZE..].copy_from_slice(bytes);
        put_u32(frame, 0, self.page);
        put_u32(frame, 4, self.size);
        put_u32(frame, 8, self.header.salt1);
        put_u32(frame, 12, self.header.salt2);
        let front_sum = sum_step(self.sum, self.header.big, &frame[..8]);
        let after = sum_step(front_sum, self.header.big, bytes);
        put_u32(frame, 16, after.s0);
        put_u32(frame, 20, after.s1);
        after
    }

    /// Lays the frame in the room, and writes it.
    fn write_from<D: Disk>(
        &self,
        disk: &mut D,
        bytes: &[u8],
        room: &mut [u8],
    ) -> Result<Sum, Failed>
        requires attached { D.attached disk.old ≡ true }
        requires legal { IsTrue (is_page_size self.now.header.page_size) }
        requires page { 0 < self.now.page }
        requires bytes { length bytes.now ≡ self.now.header.page_size }
        requires room { 24 + self.now.header.page_size ≤ length room.old }
        requires reached { IsInside (D.told disk.old) self.now.file self.now.at 0 }
        ensures written { (frame : Frame) × WritesFrame self.now bytes.now result (D.told disk.old) (D.told disk.new) frame }
        ensures stays { OnlyWrites D.DiskTells disk.old disk.new }
        ensures faults { Counts (is_ok result) (D.faults disk.old) (D.faults disk.new) }
    {
        let frame_size = frame_size(&self.header);
        let frame = &mut room[..frame_size];
        let after = self.lay(bytes, frame);
        match disk.write_at(self.file, self.at, frame) {
            Ok(()) => Ok(after),
            Err(Failed) => Err(Failed),
        }
    }

    // A function pays at its entry for the whole room that it may need, so there is one for small pages.
    fn write_small<D: Disk>(&self, disk: &mut D, bytes: &[u8]) -> Result<Sum, Failed>
        requires attached { D.attached disk.old ≡ true }
        requires legal { IsTrue (is_page_size self.now.header.page_size) }
        requires small { self.now.header.page_size ≤ 4096 }
        requires page { 0 < self.now.page }
        requires bytes { length bytes.now ≡ self.now.header.page_size }
        requires reached { IsInside (D.told disk.old) self.now.file self.now.at 0 }
        ensures written { (frame : Frame) × WritesFrame self.now bytes.now result (D.told disk.old) (D.told disk.new) frame }
        ensures stays { OnlyWrites D.DiskTells disk.old disk.new }
        ensures faults { Counts (is_ok result) (D.faults disk.old) (D.faults disk.new) }
    {
        let mut room = [0u8; HEAD_SIZE + SMALL_PAGE];
        self.write_from(disk, bytes, &mut room)
    }

    #[tactic(auto, unfolding(page_spec::specs::Header::is_page_size))]
    fn write_large<D: Disk>(&self, disk: &mut D, bytes: &[u8]) -> Result<Sum, Failed>
        requires attached { D.attached disk.old ≡ true }
        requires legal { IsTrue (is_page_size self.now.header.page_size) }
        requires page { 0 < self.now.page }
        requires bytes { length bytes.now ≡ self.now.header.page_size }
        requires reached { IsInside (D.told disk.old) self.now.file self.now.at 0 }
        ensures written { (frame : Frame) × WritesFrame self.now bytes.now result (D.told disk.old) (D.told disk.new) frame }
        ensures stays { OnlyWrites D.DiskTells disk.old disk.new }
        ensures faults { Counts (is_ok result) (D.faults disk.old) (D.faults disk.new) }
    {
        let mut room = [0u8; HEAD_SIZE + LARGE_PAGE];
        self.write_from(disk, bytes, &mut room)
    }

    /// WritesPiece the frame with the bytes of its page, by one call, and says the checksum behind it.
    pub(crate) fn write<D: Disk>(&self, disk: &mut D, bytes: &[u8]) -> Result<Sum, Failed>
        requires attached { D.attached disk.old ≡ true }
        requires legal { IsTrue (is_page_size self.now.header.page_size) }
        requires page { 0 < self.now.page }
        requires bytes { length bytes.now ≡ self.now.header.page_size }
        requires reached { IsInside (D.told disk.old) self.now.file self.now.at 0 }
        ensures written { (frame : Frame) × WritesFrame self.now bytes.now result (D.told disk.old) (D.told disk.new) frame }
        ensures stays { OnlyWrites D.DiskTells disk.old disk.new }
        ensures faults { Counts (is_ok result) (D.faults disk.old) (D.faults disk.new) }
    {
        if bytes.len() <= SMALL_PAGE {
            self.write_small(disk, bytes)
        } else {
            self.write_large(disk, bytes)
        }
    }
}
