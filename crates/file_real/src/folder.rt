//! Files of a directory of the operating system.

ghost use Rattle.std.specs.Prelude.{◌≡◌, ◌≢◌, ◌≤◌, IfErr, IfOk, IsNone, None, Ok, Err, Some, length, string_bytes};
ghost use Rattle.std.specs.Fs.{metadata_len};
ghost use Rattle.std.specs.IoError.{error_kind};
ghost use Rattle.file_real.specs.Moments.{Ticks};

use crate::path::FilePath;
use file_trait::FileName;
use std::alloc::{AllocError, Global};
use std::fs::{self, Metadata, OpenFile, OpenOptions};
use std::io::{self, ErrorKind, Read, Seek, SeekFrom, Write};
use std::rt::Files;

// What a handle does with its file.
#[derive(Clone, Copy, PartialEq, Eq)]
enum Access {
    Read,
    // Writes at the file's end, wherever that is by then.
    Append,
    // Writes at any place.
    Write,
}

impl Access {
    fn options(self) -> OpenOptions {
        let mut options = OpenOptions::new();
        match self {
            Access::Read => options.read(true),
            Access::Append => options.append(true),
            Access::Write => options.write(true),
        };
        options
    }
}

// A file that stays open.
#[derive(Drop)]
struct Kept<R: Files> {
    name: FileName,
    access: Access,
    file: R::File,
}

/// A directory, and how many calls may have changed it. The file that was read last stays open, and so does the one that was
/// written last, so that its sync hears of each write that failed; until a call may give their names to other files.
#[derive(Drop)]
pub struct Folder<'r, R: Files> {
    rt: &'r R,
    path: FilePath,
    new_path: FilePath,
    read: Option<Kept<R>>,
    written: Option<Kept<R>>,
    pub clock: u64,
}

// The length of a file by what std answers: only an error that says so is a file that is not there.
fn found(outcome: io::Result<Metadata>) -> io::Result<Option<u64>>
    ensures there { IfOk outcome (λ metadata. result ≡ Ok (Some (metadata_len metadata))) }
    ensures absent { IfErr outcome (λ e. error_kind e ≡ ErrorKind.NotFound → result ≡ Ok None) }
    ensures failed { IfErr outcome (λ e. error_kind e ≢ ErrorKind.NotFound → result ≡ Err e) }
{
    match outcome {
        Ok(metadata) => Ok(Some(metadata.len())),
        Err(error) if error.kind() == ErrorKind::NotFound => Ok(None),
        Err(error) => Err(error),
    }
}

impl<'r, R: Files> Folder<'r, R> {
    pub fn new(rt: &'r R, alloc: Global, dir: &str) -> Result<Folder<'r, R>, AllocError>
        requires { length dir.now ≤ 4096 }
        ensures dir { IfOk result (λ folder. (string_bytes folder.path.dir ≡ dir.now) × (string_bytes folder.new_path.dir ≡ dir.now)) }
        ensures clock { IfOk result (λ folder. folder.clock ≡ 0) }
    {
        Ok(Folder {
            rt,
            path: FilePath::new(alloc, dir)?,
            new_path: FilePath::new(alloc, dir)?,
            read: None,
            written: None,
            clock: 0,
        })
    }

    // Takes the moment of a call that may change the directory. At the last one it fails, and the call does nothing.
    fn tick(&mut self) -> io::Result<()>
        ensures { Ticks self.old.clock self.new.clock result }
    {
        match self.clock.checked_add(1) {
            Some(next) => {
                self.clock = next;
                Ok(())
            }
            None => Err(io::ErrorKind::Other.into()),
        }
    }

    /// Closes the files that are open.
    pub fn close(&mut self)
        ensures closed { IsNone self.new.read × IsNone self.new.written }
        ensures clock { self.new.clock ≡ self.old.clock }
    {
        self.read = None;
        self.written = None;
    }

    // The handle of this file: the kept one where it serves, and else a new one. The kept one is closed only after that is opened,
    // as the system may forget that a write failed once no handle of its file is open.
    fn handle(
        &mut self,
        name: &FileName,
        access: Access,
        kept: Option<Kept<R>>,
    ) -> io::Result<R::File>
        ensures { self.new.clock ≡ self.old.clock }
    {
        match kept {
            Some(kept) if kept.name == *name && kept.access == access => Ok(kept.file),
            _ => access.options().open(self.rt, self.path.of(name)?),
        }
    }

    // The handle that writes this file in such a way. It is kept again once it has written.
    fn writer(&mut self, name: &FileName, access: Access) -> io::Result<R::File>
        ensures { self.new.clock ≡ self.old.clock }
    {
        let kept = self.written.take();
        self.handle(name, access, kept)
    }

    fn keep_writer(&mut self, name: &FileName, access: Access, file: R::File)
        ensures { self.new.clock ≡ self.old.clock }
    {
        self.written = Some(Kept {
            name: *name,
            access,
            file,
        });
    }

    /// The length of a file, none where std says that it was not found.
    pub fn len(&mut self, name: &FileName) -> io::Result<Option<u64>>
        ensures { self.new.clock ≡ self.old.clock }
    {
        found(fs::metadata(self.rt, self.path.of(name)?))
    }

    pub fn read(&mut self, name: &FileName, at: u64, into: &mut [u8]) -> io::Result<usize>
        ensures short { IfOk result (λ n. n ≤ length into.old) }
        ensures clock { self.new.clock ≡ self.old.clock }
    {
        let kept = self.read.take();
        let mut file = self.handle(name, Access::Read, kept)?;
        file.seek(SeekFrom::Start(at))?;
        let count = file.read(into)?;
        self.read = Some(Kept {
            name: *name,
            access: Access::Read,
            file,
        });
        Ok(count)
    }

    pub fn create(&mut self, name: &FileName) -> io::Result<()>
        ensures { Ticks self.old.clock self.new.clock result }
    {
        self.tick()?;
        self.close();
        let _file = OpenOptions::new()
            .write(true)
            .create_new(true)
            .open(self.rt, self.path.of(name)?)?;
        Ok(())
    }

    /// Appends by one write where the system takes all of the bytes, to the file's end wherever that is by then.
    pub fn append(&mut self, name: &FileName, bytes: &[u8]) -> io::Result<()>
        ensures { Ticks self.old.clock self.new.clock result }
    {
        self.tick()?;
        let mut file = self.writer(name, Access::Append)?;
        file.write_all(bytes)?;
        self.keep_writer(name, Access::Append, file);
        Ok(())
    }

    pub fn mark(&mut self, name: &FileName, four: [u8; 4]) -> io::Result<()>
        ensures { Ticks self.old.clock self.new.clock result }
    {
        self.tick()?;
        let mut file = self.writer(name, Access::Write)?;
        file.seek(SeekFrom::Start(4))?;
        file.write_all(&four)?;
        self.keep_writer(name, Access::Write, file);
        Ok(())
    }

    pub fn cut(&mut self, name: &FileName, len: u64) -> io::Result<()>
        ensures { Ticks self.old.clock self.new.clock result }
    {
        self.tick()?;
        let file = self.writer(name, Access::Write)?;
        file.set_len(len)?;
        self.keep_writer(name, Access::Write, file);
        Ok(())
    }

    /// Makes the bytes and the length of a file durable, by the handle that wrote it where that is kept.
    pub fn sync(&mut self, name: &FileName) -> io::Result<()>
        ensures { Ticks self.old.clock self.new.clock result }
    {
        self.tick()?;
        match &self.written {
            Some(kept) if kept.name == *name => kept.file.sync_data(),
            _ => fs::open(self.rt, self.path.of(name)?)?.sync_data(),
        }
    }

    pub fn rename(&mut self, from: &FileName, to: &FileName) -> io::Result<()>
        ensures { Ticks self.old.clock self.new.clock result }
    {
        self.tick()?;
        self.close();
        fs::rename(self.rt, self.path.of(from)?, self.new_path.of(to)?)
    }

    pub fn remove(&mut self, name: &FileName) -> io::Result<()>
        ensures { Ticks self.old.clock self.new.clock result }
    {
        self.tick()?;
        self.close();
        fs::remove_file(self.rt, self.path.of(name)?)
    }

    /// Makes the names of the directory durable.
    pub fn sync_names(&mut self) -> io::Result<()>
        ensures { Ticks self.old.clock self.new.clock result }
    {
        self.tick()?;
        fs::open(self.rt, self.path.dir())?.sync_all()
    }
}
