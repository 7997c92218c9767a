//! A desk served from its files, from their opening on; and the exit status.
ghost use Rattle.std.specs.Prelude.{◌≡◌, None, Ok, Err, IfErr, IfOk, IsTrue};
ghost use Rattle.kfs_model.specs.Judgement.{State};
ghost use Rattle.kfs_desk.specs.Opening.{begin_fault};
ghost use Rattle.kfs_journal.specs.Disk.{LeavesOnly, Only};
ghost use Rattle.kfs_journal.specs.Journal.{AreEmpty};
ghost use Rattle.kfs_kept.specs.Faults.{IsOutside};
ghost use Rattle.kfs_kept.specs.Keeping.{IsKept};
ghost use Rattle.kfs_kept.specs.Standing.{MeanTheSame, StandFor};
ghost use Rattle.kfs_program_text.specs.Streams.{Exchanges};
ghost use Rattle.kfs_server.specs.Serving.Running.{IsRun, IsRunAdmitting, IsRunFromFiles, IsRunFromNew, admit_status, open_status, save_status, serve_status, status_of};

use crate::serving::fault::{GroupFault, RunFault, ServeFault};
use crate::serving::session::serve;
use kfs_desk::Desk;
use kfs_journal::Disk;
use kfs_kept::{AdmitFault, Judges, Kept, OpenBack, OpenFault, SaveFault};
use kfs_mode::Client;
use std::alloc::Allocator;
use std::io::{Read, Write};
use std::thread::Threads;

/// Opens the files that a kept desk has left, and serves it from `reader` to `writer`. `files` are the bytes of both
/// files, which are freed once they are read; the docket will have at most `limit` rows. `judges` serve the opening,
/// too.
///
/// `NotOpened` where the files aren't opened: nothing was read or written, and they stand for what they did.
pub fn run_opened<R, A, D, I, O>(
    judges: &Judges<'_, R>,
    alloc: A,
    disk: D,
    files: (Vec<u8, A>, Vec<u8, A>),
    limit: u32,
    reader: &mut I,
    writer: &mut O,
) -> Result<(), RunFault>
where
    R: Threads + Sync,
    A: Allocator + Copy + Send + Sync,
    D: Disk + Drop,
    I: Read,
    O: Write,
    requires bytes { D.seen disk ≡ (files.0.items, files.1.items) }
    // After a restart, what is there is what is on the disk.
    requires durable { Only (D.seen disk) (D.may_leave disk) }
    ensures { Exchanges (I.remaining reader.old) (I.remaining reader.new) (O.contents writer.old) (O.contents writer.new) (IsRunFromFiles A D.seen D.may_leave D.moment D.left_since disk result) }
{
    match open_kept(judges, alloc, disk, files, limit) {
        Ok(kept) => run(judges, alloc, kept, reader, writer),
        Err(back) => Err(RunFault::NotOpened(back.why)),
    }
}

/// The same with a list of clients, which takes the place of the desk's before anything is read (`Kept::admit`).
///
/// `NotAdmitted` where it isn't taken: nothing was read or written, and the files stand for what they did, unless the disk
/// has failed.
pub fn run_admitting<R, A, D, I, O>(
    judges: &Judges<'_, R>,
    alloc: A,
    disk: D,
    files: (Vec<u8, A>, Vec<u8, A>),
    clients: &[Client],
    limit: u32,
    reader: &mut I,
    writer: &mut O,
) -> Result<(), RunFault>
where
    R: Threads + Sync,
    A: Allocator + Copy + Send + Sync,
    D: Disk + Drop,
    I: Read,
    O: Write,
    requires bytes { D.seen disk ≡ (files.0.items, files.1.items) }
    // After a restart, what is there is what is on the disk.
    requires durable { Only (D.seen disk) (D.may_leave disk) }
    ensures { Exchanges (I.remaining reader.old) (I.remaining reader.new) (O.contents writer.old) (O.contents writer.new) (IsRunAdmitting A D.seen D.may_leave D.moment D.left_since disk clients.now result) }
{
    match open_kept(judges, alloc, disk, files, limit) {
        Ok(mut kept) => match kept.admit(judges.threads, alloc, clients, limit) {
            Ok(_) => run(judges, alloc, kept, reader, writer),
            Err(why) => Err(RunFault::NotAdmitted(why)),
        },
        Err(back) => Err(RunFault::NotOpened(back.why)),
    }
}

/// Opens files, and frees their bytes.
fn open_kept<R: Threads + Sync, A: Allocator + Copy, D: Disk + Drop>(
    judges: &Judges<'_, R>,
    alloc: A,
    disk: D,
    files: (Vec<u8, A>, Vec<u8, A>),
    limit: u32,
) -> Result<Kept<A, D>, OpenBack<D>>
    requires bytes { D.seen disk ≡ (files.0.items, files.1.items) }
    requires durable { Only (D.seen disk) (D.may_leave disk) }
    ensures found { IfOk result (λ kept. StandFor (D.seen disk) kept.desk.state) }
    ensures kept { IfOk result (λ kept. IsKept D.seen D.may_leave kept) }
    ensures open { IfOk result (λ kept. IsTrue kept.is_open) }
    ensures any_moment { IfOk result (λ kept. LeavesOnly D.moment D.left_since disk kept.disk (MeanTheSame (D.seen disk))) }
    ensures any_moment_err { IfErr result (λ back. LeavesOnly D.moment D.left_since disk back.disk (MeanTheSame (D.seen disk))) }
    ensures due { (s : State) → StandFor (D.seen disk) s → IfErr result (λ back. IsOutside back.why) }
{
    let (first, second) = files;
    let opened = Kept::open(
        judges.threads,
        alloc,
        disk,
        first.as_slice(),
        second.as_slice(),
        limit,
    );
    // A server may run for months, and the bytes are as many as the journal's.
    drop(first);
    drop(second);
    opened
}

/// Keeps a desk in a new journal on two empty files, and serves it from `reader` to `writer`.
///
/// Condition as for `Kept::create`. `NotMade` where there is no journal: nothing was read or written then.
pub fn run_new<R, A, D, I, O>(
    judges: &Judges<'_, R>,
    alloc: A,
    desk: Desk<A>,
    disk: D,
    reader: &mut I,
    writer: &mut O,
) -> Result<(), RunFault>
where
    R: Threads + Sync,
    A: Allocator + Copy + Send + Sync,
    D: Disk + Drop,
    I: Read,
    O: Write,
    requires beside { begin_fault desk.state.clients ≡ None }
    requires empty { AreEmpty (D.seen disk) }
    requires durable { Only (D.seen disk) (D.may_leave disk) }
    ensures { Exchanges (I.remaining reader.old) (I.remaining reader.new) (O.contents writer.old) (O.contents writer.new) (IsRunFromNew A D.seen D.may_leave D.moment D.left_since desk disk result) }
{
    match Kept::create(alloc, desk, disk) {
        Ok(kept) => run(judges, alloc, kept, reader, writer),
        Err(back) => Err(RunFault::NotMade(back.why)),
    }
}

/// Serves a desk, and gives it up.
fn run<R, A, D, I, O>(
    judges: &Judges<'_, R>,
    alloc: A,
    mut kept: Kept<A, D>,
    reader: &mut I,
    writer: &mut O,
) -> Result<(), RunFault>
where
    R: Threads + Sync,
    A: Allocator + Copy + Send + Sync,
    D: Disk + Drop,
    I: Read,
    O: Write,
    requires kept { IsKept D.seen D.may_leave kept }
    requires open { IsTrue kept.is_open }
    ensures { Exchanges (I.remaining reader.old) (I.remaining reader.new) (O.contents writer.old) (O.contents writer.new) (IsRun A D.seen D.may_leave D.moment D.left_since kept result) }
{
    match serve(judges, alloc, &mut kept, reader, writer) {
        Ok(()) => Ok(()),
        Err(fault) => Err(RunFault::Stopped(fault)),
    }
}

/// The exit status of a program that ran so:
/// - 0: the input has ended;
/// - 1: the list of clients leaves one out or changes it, or its clients can't be beside each other;
/// - 3: the files aren't those of a kept desk, or have failed;
/// - 4: memory was refused;
/// - 5: the input can't be read, or the output can't be written.
pub fn exit_status(ended: &Result<(), RunFault>) -> u8
    ensures { result ≡ status_of ended.now }
{
    match ended {
        Ok(()) => 0,
        Err(RunFault::NotOpened(why)) => status_of_opening(*why),
        Err(RunFault::NotAdmitted(why)) => status_of_admitting(*why),
        Err(RunFault::NotMade(why)) => status_of_making(*why),
        Err(RunFault::Stopped(fault)) => status_of_serving(*fault),
    }
}

fn status_of_opening(why: OpenFault) -> u8
    ensures { result ≡ open_status why }
{
    match why {
        OpenFault::OutOfMemory => 4,
        _ => 3,
    }
}

fn status_of_admitting(why: AdmitFault) -> u8
    ensures { result ≡ admit_status why }
{
    match why {
        AdmitFault::LeftOut(_) | AdmitFault::BadClients(_) => 1,
        AdmitFault::Unsaved(why) => status_of_making(why),
    }
}

fn status_of_making(why: SaveFault) -> u8
    ensures { result ≡ save_status why }
{
    match why {
        SaveFault::OutOfMemory => 4,
        _ => 3,
    }
}

fn status_of_serving(fault: ServeFault) -> u8
    ensures { result ≡ serve_status fault }
{
    match fault {
        ServeFault::ReadFault | ServeFault::WriteFault => 5,
        ServeFault::OutOfMemory => 4,
        ServeFault::Group(GroupFault::Full | GroupFault::Failed) => 3,
    }
}
