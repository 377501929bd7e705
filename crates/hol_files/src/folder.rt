//! A folder of files as a store of blobs.
ghost use Rattle.std.specs.Prelude.{◌≡◌, ◌≤◌, length, IfOk};
ghost use Rattle.hol_io.specs.Causes.{Rose};
ghost use Rattle.hol_io.specs.declared.store.PutFault.TheVariants.{Failed};

use crate::fronts::Fronts;
use hol_io::{BlobName, BlobStore, PutFault, StoreFailed, name_text, parse_name};
use std::alloc::{AllocError, Global};
use std::fs::{File, TryLockError};
use std::io::{ErrorKind, Read, Seek, SeekFrom, Write};
use std::{fs, io};

/// The file that a put writes before it gives it the blob's name. It is that of no blob, so a list passes it over. A run
/// that is ended within a put may leave it, and the next put takes it away first.
const NEW: &str = "hollow.new";

/// A folder, whose files are the blobs of their names. Files of other names are passed over. A folder
/// that is not there holds no names. It does not tell what it holds.
///
/// When a put answers, the blob and its name are durable: the system said so of the file before it took its name, and
/// then of the folder. Where it does not say so of the folder, the put has failed, though the name may have the blob.
///
/// The first 20 bytes of each blob that was put or read are remembered, and not read again.
///
/// Who publishes asks what is announced, or puts. From the first such call on this store keeps a lock on the folder, which
/// ends with it and with the process. While another one keeps it, these calls fail. Who reads blobs or lists the names
/// needs no lock.
#[derive(Drop)]
pub struct FolderStore {
    folder: Folder,
    faults: u64,
    puts: u64,
    failure: Option<Failure>,
}

/// A failure, and the blob that it came of; none where it came of the folder.
#[derive(Clone, Copy)]
struct Failure {
    blob: Option<BlobName>,
    error: io::Error,
}

/// A folder, the file in it that was read last, and what is worked on.
#[derive(Drop)]
struct Folder {
    rt: HostRuntime,
    alloc: Global,
    path: String,
    last: Option<OpenBlob>,
    fronts: Fronts,
    /// The folder itself, open and locked.
    held: Option<File>,
    /// The blob that the calls on the system are for; none for the folder.
    at: Option<BlobName>,
}

/// A file that stands open, and the place of its next byte.
#[derive(Drop)]
struct OpenBlob {
    name: BlobName,
    file: File,
    at: u64,
}

impl OpenBlob {
    // Places the bytes from `at` on at the front of `buf`, and gives their number.
    fn read_at(&mut self, at: u64, buf: &mut [u8]) -> io::Result<usize>
        ensures { IfOk result (λ count. count ≤ length buf.new) }
    {
        if self.at != at {
            self.at = self.file.seek(SeekFrom::Start(at))?;
        }
        let count = fill(&mut self.file, buf)?;
        self.at = self.at.saturating_add(count as u64);
        Ok(count)
    }
}

// Reads until the buffer is full or the file ends.
fn fill(file: &mut File, buf: &mut [u8]) -> io::Result<usize>
    ensures { IfOk result (λ count. count ≤ length buf.new) }
{
    let mut done = 0;
    while done < buf.len() {
        let count = file.read(&mut buf[done..])?;
        if count == 0 {
            break;
        }
        done += count;
    }
    Ok(done)
}

// Opens a folder and locks it, or fails where another run keeps the lock. The system lets go of it with the process.
fn lock_folder(rt: &HostRuntime, path: &str) -> io::Result<File> {
    let folder = File::open(rt, path)?;
    match folder.try_lock() {
        Ok(()) => Ok(folder),
        Err(TryLockError::WouldBlock) => {
            let message = "another run publishes there";
            Err(io::Error::new(ErrorKind::WouldBlock, message))
        }
        Err(TryLockError::Error(error)) => Err(error),
    }
}

// Writes a file whose bytes are durable.
fn write_durably(rt: &HostRuntime, path: &str, bytes: &[u8]) -> io::Result<()> {
    let mut file = File::create_new(rt, path)?;
    file.write_all(bytes)?;
    file.sync_all()
}

impl Folder {
    // The path of a file.
    fn path_of(&self, file: &str) -> Result<String, AllocError> {
        format!(in self.alloc; "{}/{file}", self.path)
    }

    // The path of a name's file.
    fn blob_path(&self, name: &BlobName) -> Result<String, AllocError> {
        self.path_of(name_text(self.alloc, name)?.as_str())
    }

    // The folder itself, which is locked from now on.
    fn claimed(&mut self) -> io::Result<&File> {
        self.at = None;
        if self.held.is_none() {
            let path = self.path_of(".")?;
            self.held = Some(lock_folder(&self.rt, path.as_str())?);
        }
        self.held
            .as_ref()
            .ok_or(io::Error::from(ErrorKind::NotFound))
    }

    // Opens the file of a name, and gives its length; none where it is not there.
    fn open(&mut self, name: &BlobName) -> io::Result<Option<u64>> {
        self.last = None;
        match self.open_file(name) {
            Ok(size) => Ok(Some(size)),
            Err(error) if error.kind() == ErrorKind::NotFound => Ok(None),
            Err(error) => Err(error),
        }
    }

    // Opens the file of a name, and gives its length.
    fn open_file(&mut self, name: &BlobName) -> io::Result<u64> {
        if *name == BlobName::Announced {
            self.claimed()?;
        }
        self.at = Some(*name);
        let path = self.blob_path(name)?;
        if !fs::metadata(&self.rt, path.as_str())?.is_file() {
            return Err(io::Error::new(ErrorKind::InvalidInput, "not a file"));
        }
        let file = File::open(&self.rt, path.as_str())?;
        let size = file.metadata()?.len();
        self.last = Some(OpenBlob {
            name: *name,
            file,
            at: 0,
        });
        Ok(size)
    }

    // Places the bytes of a name from `at` on at the front of `buf`, and gives their number.
    fn read(&mut self, name: &BlobName, at: u64, buf: &mut [u8]) -> io::Result<usize>
        ensures { IfOk result (λ count. count ≤ length buf.new) }
    {
        if at != 0 {
            return self.read_file(name, at, buf);
        }
        if let Some(count) = self.fronts.read(name, buf) {
            return Ok(count);
        }
        let count = self.read_file(name, 0, buf)?;
        self.fronts.remember(name, &buf[..count]);
        Ok(count)
    }

    // Places the bytes of a name's file from `at` on at the front of `buf`, and gives their number; 0 where the file is not there.
    fn read_file(&mut self, name: &BlobName, at: u64, buf: &mut [u8]) -> io::Result<usize>
        ensures { IfOk result (λ count. count ≤ length buf.new) }
    {
        let is_open = self.last.as_ref().is_some_and(|blob| blob.name == *name);
        if !is_open {
            self.open(name)?;
        }
        self.at = Some(*name);
        match &mut self.last {
            Some(blob) => blob.read_at(at, buf),
            None => Ok(0),
        }
    }

    // Writes a new file, then gives it the name's, and sees to it that both are durable. Its first bytes are remembered.
    fn replace(&mut self, name: &BlobName, bytes: &[u8]) -> io::Result<()> {
        self.fronts.forget(name);
        self.replace_file(name, bytes)?;
        self.fronts.remember(name, bytes);
        Ok(())
    }

    // Writes a new file, then gives it the name's, and sees to it that both are durable. No first bytes are remembered or forgotten.
    fn replace_file(&mut self, name: &BlobName, bytes: &[u8]) -> io::Result<()> {
        self.last = None;
        self.claimed()?;
        self.at = Some(*name);
        let new = self.path_of(NEW)?;
        let path = self.blob_path(name)?;
        let _stray = fs::remove_file(&self.rt, new.as_str());
        let mut done = write_durably(&self.rt, new.as_str(), bytes);
        if done.is_ok() {
            done = fs::rename(&self.rt, new.as_str(), path.as_str());
        }
        if done.is_err() {
            let _removed = fs::remove_file(&self.rt, new.as_str());
            return done;
        }
        self.claimed()?.sync_all()
    }

    // The names of the folder's files, in order.
    fn names(&mut self) -> io::Result<Vec<BlobName>> {
        self.at = None;
        let mut names = Vec::new(self.alloc);
        for entry in fs::read_dir(&self.rt, self.path.as_str())? {
            match entry {
                Ok(entry) => {
                    if let Some(name) = parse_name(entry.file_name()) {
                        names.push(name)?;
                    }
                }
                Err(error) if error.kind() == ErrorKind::InvalidFilename => {}
                Err(error) => return Err(error),
            }
        }
        names.sort()?;
        Ok(names)
    }
}

impl FolderStore {
    /// The store of a folder, of which no call has failed.
    pub fn new(rt: HostRuntime, alloc: Global, path: &str) -> Result<FolderStore, AllocError> {
        let folder = Folder {
            rt,
            alloc,
            path: String::from_str(alloc, path)?,
            last: None,
            fronts: Fronts::new(alloc),
            held: None,
            at: None,
        };
        Ok(FolderStore {
            folder,
            faults: 0,
            puts: 0,
            failure: None,
        })
    }

    /// What failed last, and the system's words for it; none where no call has failed.
    pub fn last_failure(&self) -> Result<Option<String>, AllocError> {
        let Some(failure) = &self.failure else {
            return Ok(None);
        };
        let path = match &failure.blob {
            Some(name) => self.folder.blob_path(name)?,
            None => self.folder.path.clone()?,
        };
        let text = format!(in self.folder.alloc; "{path}: {}", failure.error)?;
        Ok(Some(text))
    }

    // Counts a failure, and remembers it.
    fn count(&mut self, error: io::Error)
        ensures later { self.old.faults ≤ self.new.faults }
        ensures rose { Rose self.old.faults self.new.faults }
        ensures puts { self.new.puts ≡ self.old.puts }
    {
        self.folder.last = None;
        self.faults = self.faults.saturating_add(1);
        self.failure = Some(Failure {
            blob: self.folder.at,
            error,
        });
    }

    // Why a put or a list was refused. Want of memory is not counted.
    fn refused(&mut self, error: io::Error) -> PutFault
        ensures later { self.old.faults ≤ self.new.faults }
        ensures rose { result ≡ PutFault.Failed → Rose self.old.faults self.new.faults }
        ensures puts { self.new.puts ≡ self.old.puts }
    {
        if error.kind() == ErrorKind::OutOfMemory {
            return PutFault::Memory;
        }
        self.count(error);
        PutFault::Failed
    }
}

impl BlobStore for FolderStore {
    ghost use Rattle.std.specs.Prelude.{None};

    ghost seen = { λ store. record { held = None; faults = store.faults; puts = store.puts } };

    fn told_bytes(&self) {}

    fn size(&mut self, name: &BlobName) -> Result<Option<u64>, StoreFailed> {
        match self.folder.open(name) {
            Ok(size) => Ok(size),
            Err(error) => {
                self.count(error);
                Err(StoreFailed)
            }
        }
    }

    fn read_at(&mut self, name: &BlobName, at: u64, buf: &mut [u8]) -> Result<usize, StoreFailed> {
        match self.folder.read(name, at, buf) {
            Ok(count) => Ok(count),
            Err(error) => {
                self.count(error);
                Err(StoreFailed)
            }
        }
    }

    fn put(&mut self, name: &BlobName, bytes: &[u8]) -> Result<(), PutFault> {
        self.puts = self.puts.saturating_add(1);
        match self.folder.replace(name, bytes) {
            Ok(()) => Ok(()),
            Err(error) => Err(self.refused(error)),
        }
    }

    fn list(&mut self, out: &mut Vec<BlobName>) -> Result<(), PutFault> {
        match self.folder.names() {
            Ok(names) => Ok(out.extend_from_slice(names.as_slice())?),
            Err(error) => Err(self.refused(error)),
        }
    }
}
