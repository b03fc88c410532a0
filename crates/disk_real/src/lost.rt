// Which files' syncs have failed.
ghost use Rattle.std.specs.Prelude.{◌≡◌, false};
ghost use Rattle.disk_real.specs.Disk.{is_lost, with_lost};

use disk_face::File;

/// Of which of the three files a sync has failed.
#[derive(Clone, Copy, Debug)]
pub struct Lost {
    main: bool,
    log1: bool,
    log2: bool,
}

impl Lost {
    /// Of none.
    pub(crate) fn none() -> Lost
        ensures { result ≡ record { main = false; log1 = false; log2 = false } }
    {
        Lost {
            main: false,
            log1: false,
            log2: false,
        }
    }

    /// Whether a sync of this file has failed.
    pub(crate) fn has(&self, file: File) -> bool
        ensures { result ≡ is_lost self.now file }
    {
        match file {
            File::Main => self.main,
            File::Log1 => self.log1,
            File::Log2 => self.log2,
        }
    }

    /// Notes that a sync of this file has failed.
    pub(crate) fn add(&mut self, file: File)
        ensures { self.new ≡ with_lost self.old file }
    {
        match file {
            File::Main => self.main = true,
            File::Log1 => self.log1 = true,
            File::Log2 => self.log2 = true,
        }
    }
}
