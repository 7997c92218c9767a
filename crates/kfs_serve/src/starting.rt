//! A desk that its files keep, or a new one, served to the end of the input.
ghost use Rattle.std.specs.Prelude.{◌≡◌, None, IfOk};
ghost use Rattle.kfs_desk.specs.Opening.{begin_fault};

use crate::clients::clients_in;
use crate::fault::ProgramFault;
use crate::words::{Asked, FirstStart, asked_of};
use kfs_desk::{BeginFault, Desk};
use kfs_image::Image;
use kfs_journal_files::{OpenedFiles, create_files, open_files};
use kfs_mode::Client;
use kfs_server::{Judges, run_admitting, run_new, run_opened};
use std::alloc::Global;
use std::io::{Read, Write};
use std::thread::Threads;
use std::{fs, io};

/// Does what the words ask for. Nothing is read from `reader` before the files are made or opened. `threads` serve the
/// opening of files and the judging.
pub fn run<T: Threads + Sync, I: Read, O: Write>(
    rt: &HostRuntime,
    threads: &T,
    words: &[&str],
    reader: &mut I,
    writer: &mut O,
) -> Result<(), ProgramFault> {
    let Some(asked) = asked_of(words) else {
        return Err(ProgramFault::Usage);
    };
    let judges = Judges {
        threads,
        count: asked.judges,
    };
    match &asked.first {
        None => serve_files(rt, &judges, &asked, reader, writer),
        Some(first) => serve_new(rt, &judges, &asked, first, reader, writer),
    }
}

/// Opens the two files of the folder, and serves their desk, with the clients of a file if the words name one.
fn serve_files<T: Threads + Sync, I: Read, O: Write>(
    rt: &HostRuntime,
    judges: &Judges<'_, T>,
    asked: &Asked<'_>,
    reader: &mut I,
    writer: &mut O,
) -> Result<(), ProgramFault> {
    // The clients come first, so that no file is opened where a line is refused.
    let admitted = match asked.admitted {
        None => None,
        Some(path) => Some(clients_of(rt, path)?),
    };
    let OpenedFiles {
        disk,
        first,
        second,
    } = open_files(rt, asked.folder)?;
    let (alloc, files, limit) = (rt.alloc(), (first, second), asked.limit);
    match admitted {
        None => run_opened(judges, alloc, disk, files, limit, reader, writer)?,
        Some(clients) => run_admitting(
            judges, alloc, disk, files, &clients, limit, reader, writer,
        )?,
    }
    Ok(())
}

/// Makes the two files in the folder, and serves a new desk.
fn serve_new<T: Threads + Sync, I: Read, O: Write>(
    rt: &HostRuntime,
    judges: &Judges<'_, T>,
    asked: &Asked<'_>,
    first: &FirstStart<'_>,
    reader: &mut I,
    writer: &mut O,
) -> Result<(), ProgramFault> {
    // The clients come first, so that no files are left where one is refused.
    let desk = new_desk(rt, first, asked.limit)?;
    let disk = create_files(rt, asked.folder)?;
    run_new(judges, rt.alloc(), desk, disk, reader, writer)?;
    Ok(())
}

/// A desk on a new image, with the clients of a file.
fn new_desk(
    rt: &HostRuntime,
    first: &FirstStart<'_>,
    limit: u32,
) -> Result<Desk<Global>, ProgramFault>
    ensures { IfOk result (λ desk. begin_fault desk.state.clients ≡ None) }
{
    let clients = clients_of(rt, first.clients)?;
    let image = Image::fresh(rt.alloc(), first.sizes)?;
    match Desk::begin(rt.alloc(), image, clients, limit) {
        Ok(desk) => Ok(desk),
        Err(back) => Err(begin_refused(back.why)),
    }
}

fn begin_refused(why: BeginFault) -> ProgramFault {
    match why {
        BeginFault::OutOfMemory => ProgramFault::OutOfMemory,
        why => ProgramFault::BadClients(why),
    }
}

/// The clients of the lines of a file.
fn clients_of(rt: &HostRuntime, path: &str) -> Result<Vec<Client>, ProgramFault> {
    let text = clients_text(rt, path)?;
    clients_in(rt.alloc(), &text)
}

/// The file of the clients.
fn clients_text(rt: &HostRuntime, path: &str) -> Result<Vec<u8>, ProgramFault> {
    match fs::read(rt, path) {
        Ok(text) => Ok(text),
        Err(error) if error.kind() == io::ErrorKind::OutOfMemory => Err(ProgramFault::OutOfMemory),
        Err(error) => Err(ProgramFault::Unread(error)),
    }
}
