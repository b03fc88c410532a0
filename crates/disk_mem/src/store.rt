// Three files in memory that keep their steps.
ghost use Rattle.std.specs.Prelude.{◌≡◌, ◌≤◌, ◌⊎◌, [], length, IfOk, OnOk, OnErr};
ghost use Rattle.disk_mem.specs.Crash.{marks_of, picked, unpicked, crashed};
ghost use Rattle.disk_face.specs.declared.step.Step.TheVariants.{Wrote, Refused, Synced};
ghost use Rattle.disk_face.specs.Files.{content};
ghost use Rattle.disk_face.specs.Steps.{reads};
ghost use Rattle.disk_mem.specs.Store.{fresh, further};

use crate::crash;
use crate::file::MemFile;
use disk_face::{Bytes, File, Piece, Step};
use std::alloc::{AllocError, Global};
use std::marker::Model;

/// The three files with all their steps since they were made. A contract sees what they held at first and the steps.
#[derive(Debug, Drop)]
pub(crate) struct Store {
    main: MemFile,
    log1: MemFile,
    log2: MemFile,
    steps: Vec<Step>,
}

impl Model for Store {
    ghost use Rattle.disk_face.specs.Steps.{History};
    ghost use Rattle.disk_mem.specs.Store.{history, IsKept};

    ghost Value = { History };

    ghost view = { λ store. history store.main store.log1 store.log2 store.steps.items };

    ghost invariant = { λ store. IsKept store.main store.log1 store.log2 store.steps.items };
}

impl Store {
    pub(crate) fn new(alloc: Global, main: Vec<u8>, log1: Vec<u8>, log2: Vec<u8>) -> Store
        ensures { result ≡ fresh main.items log1.items log2.items }
    {
        Store {
            main: MemFile::new(main),
            log1: MemFile::new(log1),
            log2: MemFile::new(log2),
            steps: Vec::new(alloc),
        }
    }

    pub(crate) fn alloc(&self) -> Global {
        *self.steps.allocator()
    }

    pub(crate) fn bytes(&self, file: File) -> &[u8]
        ensures { result.now ≡ content (reads self.now) file }
    {
        match file {
            File::Main => self.main.bytes(),
            File::Log1 => self.log1.bytes(),
            File::Log2 => self.log2.bytes(),
        }
    }

    /// Writes the piece. Without memory nothing changes.
    pub(crate) fn write(&mut self, file: File, at: u64, piece: &[u8]) -> Result<(), AllocError>
        requires { at ≤ length (content (reads self.old) file) }
        ensures done { OnOk result (self.new ≡ further (Wrote (record { file = file; at = at; bytes = piece.now })) self.old) }
        ensures refused { OnErr result (self.new ≡ self.old) }
    {
        let step = Step::Wrote(Piece {
            file,
            at,
            bytes: Bytes::of(*self.steps.allocator(), piece)?,
        });
        self.steps.reserve(1)?;
        match file {
            File::Main => self.main.put(at as usize, piece)?,
            File::Log1 => self.log1.put(at as usize, piece)?,
            File::Log2 => self.log2.put(at as usize, piece)?,
        }
        Ok(self.steps.push(step)?)
    }

    /// Notes that a write of the piece was refused and changed nothing. Without memory it isn't noted.
    pub(crate) fn refuse(&mut self, file: File, at: u64, piece: &[u8])
        ensures { (self.new ≡ self.old) ⊎ (self.new ≡ further (Refused (record { file = file; at = at; bytes = piece.now }) []) self.old) }
    {
        let alloc = *self.steps.allocator();
        if let Ok(bytes) = Bytes::of(alloc, piece) {
            let step = Step::Refused(Piece { file, at, bytes }, Bytes::new(alloc));
            let _ = self.steps.push(step);
        }
    }

    /// Notes that the file was synced. Without memory nothing changes.
    pub(crate) fn sync(&mut self, file: File) -> Result<(), AllocError>
        ensures done { OnOk result (self.new ≡ further (Synced file) self.old) }
        ensures refused { OnErr result (self.new ≡ self.old) }
    {
        Ok(self.steps.push(Step::Synced(file))?)
    }

    /// What a crash leaves, with the bytes of `pick` wherever it may leave any.
    pub(crate) fn crash(&self, pick: &[u8]) -> Result<Store, AllocError>
        ensures { IfOk result (λ left. left ≡ crashed self.now pick.now) }
    {
        let (main, pick) = self.left_of(File::Main, pick)?;
        let (log1, pick) = self.left_of(File::Log1, pick)?;
        let (log2, _) = self.left_of(File::Log2, pick)?;
        Ok(Store::new(*self.steps.allocator(), main, log1, log2))
    }

    /// What a crash leaves of one file, and what it leaves of `pick`.
    fn left_of<'a>(&self, file: File, pick: &'a [u8]) -> Result<(Vec<u8>, &'a [u8]), AllocError>
        ensures bytes { IfOk result (λ left. left.0.items ≡ picked (marks_of self.now file) (content (reads self.now) file) pick.now) }
        ensures left { IfOk result (λ left. left.1.now ≡ unpicked (marks_of self.now file) pick.now) }
    {
        let alloc = *self.steps.allocator();
        let mut bytes = self.bytes(file).to_vec(alloc)?;
        let mut marks = vec![in alloc; false; bytes.len()]?;
        crash::mark(&self.steps, file, &mut marks);
        let rest = crash::scatter(&marks, pick, &mut bytes);
        Ok((bytes, rest))
    }
}
