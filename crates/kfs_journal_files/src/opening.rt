//! The two files of a folder: made or opened, locked, synced, and read once.
ghost use Rattle.std.specs.Prelude.{◌≡◌, IfOk};
ghost use Rattle.kfs_journal.specs.Disk.{Only};
ghost use Rattle.kfs_journal.specs.Journal.{AreEmpty};
ghost use Rattle.kfs_journal_files.specs.Events.{seen_after, Leaves};

use crate::fault::FilesFault;
use crate::pair::Pair;
use crate::raw_disk::RawDisk;
use std::fs::{OpenOptions, TryLockError};
use std::io::Read;
use std::os::fd::AsRawFd;
use std::os::unix::fs::{MetadataExt, OpenOptionsExt};
use std::{fs, io};

/// The name of the first file in its folder.
pub const FIRST_NAME: &str = "first.kdjl";

/// The name of the second file in its folder.
pub const SECOND_NAME: &str = "second.kdjl";

/// Who may read and write a file that is made: its owner.
const MODE: u32 = 0o600;

/// Files that were opened, and the bytes that each of them had.
#[derive(Drop)]
pub struct OpenedFiles {
    pub disk: RawDisk<Pair>,
    pub first: Vec<u8>,
    pub second: Vec<u8>,
}

/// Makes the two files in this folder, which is there, empty and for their owner alone, for `Journal::create`.
///
/// `Io` with `AlreadyExists` where something stands at a name, also a link that leads nowhere. `Busy` where
/// another handle was faster and has locked a new file or written to it. What fails on the way may leave one or
/// both files, empty: remove them.
pub fn create_files(rt: &HostRuntime, folder: &str) -> Result<RawDisk<Pair>, FilesFault>
    ensures empty { IfOk result (λ disk. AreEmpty (seen_after disk.told.events)) }
    ensures durable { IfOk result (λ disk. Only (seen_after disk.told.events) (Leaves disk.told.events)) }
{
    let first_path = format!(in rt.alloc(); "{folder}/{FIRST_NAME}")?;
    let second_path = format!(in rt.alloc(); "{folder}/{SECOND_NAME}")?;
    // asked first, so that no first file is left beside a second one that was there
    refuse_taken(rt, second_path.as_str())?;
    let first = make_locked(rt, first_path.as_str())?;
    let second = make_locked(rt, second_path.as_str())?;
    let opened = settled_files(rt, folder, first, second)?;
    if !opened.first.is_empty() || !opened.second.is_empty() {
        return Err(FilesFault::Busy);
    }
    Ok(opened.disk)
}

/// Opens the two files of this folder, for `Journal::open`: locks both, brings them and the folder to the disk,
/// and reads them. Memory is taken for their bytes.
///
/// `Io` with `NotFound` where a file isn't there. `Busy` where another handle has one open. `NotRegular` where
/// no regular file stands at a name: nothing is changed then.
pub fn open_files(rt: &HostRuntime, folder: &str) -> Result<OpenedFiles, FilesFault>
    ensures bytes { IfOk result (λ opened. seen_after opened.disk.told.events ≡ (opened.first.items, opened.second.items)) }
    ensures durable { IfOk result (λ opened. Only (seen_after opened.disk.told.events) (Leaves opened.disk.told.events)) }
{
    let first_path = format!(in rt.alloc(); "{folder}/{FIRST_NAME}")?;
    let second_path = format!(in rt.alloc(); "{folder}/{SECOND_NAME}")?;
    let first = open_locked(rt, first_path.as_str())?;
    let second = open_locked(rt, second_path.as_str())?;
    settled_files(rt, folder, first, second)
}

/// Brings both files and their folder to the disk, and then reads them.
fn settled_files(
    rt: &HostRuntime,
    folder: &str,
    mut first: fs::File,
    mut second: fs::File,
) -> Result<OpenedFiles, FilesFault>
    ensures bytes { IfOk result (λ opened. seen_after opened.disk.told.events ≡ (opened.first.items, opened.second.items)) }
    ensures durable { IfOk result (λ opened. Only (seen_after opened.disk.told.events) (Leaves opened.disk.told.events)) }
{
    first.sync_all()?;
    second.sync_all()?;
    fs::File::open(rt, folder)?.sync_all()?;
    let mut first_bytes = Vec::new(rt.alloc());
    first.read_to_end(&mut first_bytes)?;
    let mut second_bytes = Vec::new(rt.alloc());
    second.read_to_end(&mut second_bytes)?;
    let disk = RawDisk::begin(Pair::new(first, second), &first_bytes, &second_bytes);
    Ok(OpenedFiles {
        disk,
        first: first_bytes,
        second: second_bytes,
    })
}

/// Refuses a name at which something stands, also a link that leads nowhere.
fn refuse_taken(rt: &HostRuntime, path: &str) -> io::Result<()> {
    match fs::symlink_metadata(rt, path) {
        Ok(_) => Err(io::ErrorKind::AlreadyExists.into()),
        Err(error) if error.kind() == io::ErrorKind::NotFound => Ok(()),
        Err(error) => Err(error),
    }
}

/// Makes a file, and locks it. `create_new` follows no link.
fn make_locked(rt: &HostRuntime, path: &str) -> Result<fs::File, FilesFault> {
    let file = OpenOptions::new()
        .read(true)
        .write(true)
        .create_new(true)
        .mode(MODE)
        .open(rt, path)?;
    locked(rt, path, file)
}

/// Opens a regular file, and locks it. It is asked for by its name first, so that no device is opened.
fn open_locked(rt: &HostRuntime, path: &str) -> Result<fs::File, FilesFault> {
    if !fs::symlink_metadata(rt, path)?.is_file() {
        return Err(FilesFault::NotRegular);
    }
    let file = OpenOptions::new().read(true).write(true).open(rt, path)?;
    locked(rt, path, file)
}

/// The file, locked. It is refused where it isn't what stands at the name: a link may have been put there, or
/// another file, since it was asked for.
fn locked(rt: &HostRuntime, path: &str, file: fs::File) -> Result<fs::File, FilesFault> {
    let file = above_streams(file)?;
    match file.try_lock() {
        Ok(()) => {}
        Err(TryLockError::WouldBlock) => return Err(FilesFault::Busy),
        Err(TryLockError::Error(error)) => return Err(FilesFault::Io(error)),
    }
    let (found, named) = (file.metadata()?, fs::symlink_metadata(rt, path)?);
    if !found.is_file() || found.dev() != named.dev() || found.ino() != named.ino() {
        return Err(FilesFault::NotRegular);
    }
    Ok(file)
}

/// The file with a descriptor above those of the standard streams. Where one of these was closed, the file may
/// have got its number, and what is printed would land in the journal.
fn above_streams(file: fs::File) -> io::Result<fs::File> {
    if file.as_raw_fd() <= 2 {
        return file.try_clone();
    }
    Ok(file)
}
