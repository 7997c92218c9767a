//! Reads as a record keeps them.
ghost use Rattle.std.specs.Prelude.{◌≡◌, ◌≤◌, IfOk, IsOk, length};
ghost use Rattle.std.specs.Cmp.{partial_equiv_from_equiv};
ghost use Rattle.kfs_image_nodes.specs.declared.cell.Cell.TheVariants as cells;
ghost use Rattle.kfs_judge_reads.specs.declared.reads.Read.TheVariants as reads;
ghost use Rattle.kfs_judge_reads.specs.contracts.reads.ReadEq.TheImpl.Laws.{laws-law};
ghost use Rattle.kfs_judge_reads.specs.KeptReads.{read_at};
ghost use Rattle.kfs_judge_reads.specs.SameReads.{fed_read, same_read};
ghost use Rattle.kfs_judge_reads.specs.ReadKeys.{fed_alike};

use crate::draft::NameKey;
use crate::reads::Read;
use kfs_image_nodes::Cell;
use kfs_types::KeptName;
use std::alloc::{AllocError, Allocator};
use std::hash::{Hash, Hasher};
use std::marker::Model;

/// A read as a record keeps it. Its name is kept (`KeptName`), so it is 40 bytes long, and a `Read` is
/// 268. For contracts it is the read.
#[derive(Debug, Drop)]
pub struct KeptRead<A: Allocator> {
    place: Place<A>,
}

/// What was read.
#[derive(Debug, Drop)]
pub(crate) enum Place<A: Allocator> {
    Header(u32),
    Name(u32, KeptName<A>),
    Count(u32),
    Parent(u32),
    Lease(u32),
}

impl<A: Allocator> Model for KeptRead<A> {
    ghost use Rattle.kfs_judge_reads.specs.KeptReads.{read_at};
    ghost use Rattle.kfs_judge_reads.specs.declared.reads.Read.{Read as ReadShown};

    ghost Value = { ReadShown };

    ghost view = { λ read. read_at read.place };
}

impl<A: Allocator> PartialEq for KeptRead<A> {
    ghost eq = { same_read };

    ghost laws = { partial_equiv_from_equiv laws-law };

    fn eq(&self, other: &Self) -> bool {
        match &self.place {
            Place::Header(number) => match &other.place {
                Place::Header(other) => number == other,
                Place::Name(..) | Place::Count(_) | Place::Parent(_) | Place::Lease(_) => false,
            },
            Place::Name(dir, name) => match &other.place {
                Place::Name(other_dir, other) => dir == other_dir && name == other,
                Place::Header(_) | Place::Count(_) | Place::Parent(_) | Place::Lease(_) => false,
            },
            Place::Count(dir) => match &other.place {
                Place::Count(other) => dir == other,
                Place::Header(_) | Place::Name(..) | Place::Parent(_) | Place::Lease(_) => false,
            },
            Place::Parent(number) => match &other.place {
                Place::Parent(other) => number == other,
                Place::Header(_) | Place::Name(..) | Place::Count(_) | Place::Lease(_) => false,
            },
            Place::Lease(number) => match &other.place {
                Place::Lease(other) => number == other,
                Place::Header(_) | Place::Name(..) | Place::Count(_) | Place::Parent(_) => false,
            },
        }
    }
}

impl<A: Allocator> Eq for KeptRead<A> {
    ghost laws = { laws-law };
}

impl<A: Allocator> Hash for KeptRead<A> {
    ghost hash_input = { fed_read };

    ghost respects_eq = { fed_alike };

    fn hash<H: Hasher>(&self, state: &mut H) {
        match &self.place {
            Place::Header(number) => number.hash(state),
            Place::Name(dir, name) => {
                dir.hash(state);
                name.hash(state);
            }
            Place::Count(dir) => {
                state.write_u8(1);
                dir.hash(state);
            }
            Place::Parent(number) => {
                state.write_u8(2);
                number.hash(state);
            }
            Place::Lease(number) => {
                state.write_u8(3);
                number.hash(state);
            }
        }
    }
}

impl<A: Allocator> KeptRead<A> {
    /// The read of a node's header. Takes no memory.
    #[inline(always)]
    pub fn header(number: u32) -> KeptRead<A>
        ensures { result ≡ reads.Look (cells.Header number) }
    {
        KeptRead {
            place: Place::Header(number),
        }
    }

    /// The read of a name. `Err` where memory runs out, which a name of up to 30 bytes doesn't take.
    pub(crate) fn name(alloc: A, key: &NameKey<'_, '_>) -> Result<KeptRead<A>, AllocError>
        ensures read { IfOk result (λ read. read ≡ reads.Look (cells.Name key.now.0 key.now.1)) }
        ensures short { length key.now.1 ≤ 30 → IsOk result }
    {
        let name = key.name().kept(alloc)?;
        Ok(KeptRead {
            place: Place::Name(key.dir(), name),
        })
    }

    /// The read of how many names a directory has. Takes no memory.
    #[inline(always)]
    pub fn count(dir: u32) -> KeptRead<A>
        ensures { result ≡ reads.Look (cells.Count dir) }
    {
        KeptRead {
            place: Place::Count(dir),
        }
    }

    /// The read of a directory's parent. Takes no memory.
    #[inline(always)]
    pub fn parent(number: u32) -> KeptRead<A>
        ensures { result ≡ reads.Look (cells.Parent number) }
    {
        KeptRead {
            place: Place::Parent(number),
        }
    }

    /// The read of a lease. Takes no memory.
    #[inline(always)]
    pub fn lease(number: u32) -> KeptRead<A>
        ensures { result ≡ reads.Lease number }
    {
        KeptRead {
            place: Place::Lease(number),
        }
    }

    /// The read as a value to match on. Takes no memory.
    pub fn read(&self) -> Read
        ensures { result ≡ self.now }
    {
        match &self.place {
            Place::Header(number) => Read::Look(Cell::Header(*number)),
            Place::Name(dir, name) => Read::Look(Cell::Name(*dir, name.owned())),
            Place::Count(dir) => Read::Look(Cell::Count(*dir)),
            Place::Parent(number) => Read::Look(Cell::Parent(*number)),
            Place::Lease(number) => Read::Lease(*number),
        }
    }

    /// What was read. Takes no memory.
    pub(crate) fn place(&self) -> &Place<A>
        ensures { read_at result.now ≡ self.now }
    {
        &self.place
    }
}
