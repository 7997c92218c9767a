//! The disk of a journal on two files of the operating system, `first.kdjl` and `second.kdjl` in one folder.
//!
//! It stands on `kfs_journal`. Begin with `create_files` and `open_files`, whose disk is
//! for `Journal::create` and `Journal::open`; then `RawDisk`.
//!
//! # What is proved
//!
//! `RawDisk` keeps to `Disk`, so all that `kfs_journal` proves holds over it, of any files whatever. What they
//! were told is a list that takes no memory (`Told`): what is there, and what a crash may leave, are defined by
//! this list (`specs/Events`). A call that fails is noted as tried, and each later call is refused. The two
//! functions of `Told` are proved by hand, since they set what no memory holds.
//!
//! # What is argued, and not proved
//!
//! What the list says is true of a real run only under all of these.
//!
//! 1. **The calls.** Each method of `pair.rt` makes the call of its name, on the file that it is given, and
//!    answers `Ok` only where it is done whole. `write_all_at` of std goes on after short and interrupted
//!    writes, and an interrupted sync or cut is made again.
//! 2. **The list.** `raw_disk.rt` notes each call that it makes, with what it was told, before it answers. A
//!    body that noted a sync and made none would be proved as well.
//! 3. **The start.** `RawDisk::begin` takes the word of its caller that these bytes were read from the files,
//!    and are on the disk. In this crate `settled_files` of `opening.rt` alone calls it: both files and their
//!    folder are synced, and then each file is read once.
//!
//!    **After a sync that failed** Linux may show pages as clean that it never wrote, to the next process, too.
//!    The gate lets no crate make the call that drops such pages (fadvise). So restart the machine, or unmount
//!    the file system, before you open the files again.
//! 4. **The disk.** After a sync of its data (fdatasync) has answered, the file's bytes and length are on the
//!    disk, through power loss, too. Before, a crash leaves any bytes in the range of a write and past the old
//!    end, some length between where a file was cut, and nothing else. A disk that harms what lies beside a torn
//!    sector, or that acknowledges what it hasn't kept, breaks this.
//! 5. **Nobody else.** No other code writes to the files. The lock (flock) is exclusive, on both files, and
//!    lasts until the disk is dropped, but only those who ask for it are kept out. A child process keeps it with
//!    the descriptors that it inherits across a fork.
//! 6. **The names.** A name in the folder is durable once the folder is synced. What leads to the folder may be
//!    a link, and is followed; what stands at the two names may not.
//!
//! # What to check by eye
//!
//! `pair.rt`, `raw_disk.rt` and `opening.rt`, by the points above. In code of yours:
//!
//! - What calls `RawDisk::begin`, or implements `RawFiles`, keeps to points 1 and 3.
//! - No proof by hand is written over `Told`.
//! - A function that takes a disk uses this one, and not another of its type.
#![tactic(auto)]

mod fault;
mod opening;
mod pair;
mod raw_disk;
mod told;

pub use fault::FilesFault;
pub use opening::{FIRST_NAME, OpenedFiles, SECOND_NAME, create_files, open_files};
pub use pair::Pair;
pub use raw_disk::{RawDisk, RawFiles};
