//! The headers with which a log and a plan begin.
ghost use Rattle.std.specs.Prelude.{◌≡◌, ◌≤◌, ◌++◌, length, drop, option_map, IfSome, IfNone, OnOk};
ghost use Rattle.kfs_model.specs.Spelling.{BeginsWithNo, IsLogHeader, log_header, IsPlanHeader, plan_header};
ghost use Rattle.kfs_entry.specs.Codec.Headers.{log_header_of, plan_header_of};
ghost use Rattle.kfs_model.proofs.Reading.{mark_read, version_read, count_read, log_header_read, plan_header_read};
ghost use Rattle.kfs_entry.specs.Codec.Reading.{StandsIn, seen};

use crate::codec::{byte, number16, number32};
use kfs_types::{ENTRY_LIMIT, LATEST_VERSION};
use std::alloc::{AllocError, Allocator};

/// What a log begins with.
const LOG_MARK: &[u8] = b"KLOG";

/// What a plan begins with.
const PLAN_MARK: &[u8] = b"KPLN";

/// The length of a log's header in bytes.
pub const LOG_LEN: usize = 11;

/// The length of a plan's header in bytes.
pub const PLAN_LEN: usize = 13;

/// The version and the client of a log, and how many entries follow.
#[derive(Clone, Copy)]
pub struct LogHeader {
    /// The version of its format: 1 or 2.
    pub version: u8,
    /// The client's number, any of 32 bits.
    pub client: u32,
    /// At most 4,096.
    pub entries: u16,
}

/// The version of a plan, and how many rows each part has.
#[derive(Clone, Copy)]
pub struct PlanHeader {
    /// The version of its format: 1 or 2.
    pub version: u8,
    /// How many name rows.
    pub names: u16,
    /// How many node rows.
    pub nodes: u16,
    /// How many pieces.
    pub pieces: u32,
}

/// The position after these bytes, where they stand at position `at`; none where others do.
#[tactic(auto, unfolding(kfs_model::proofs::Reading::mark_read))]
pub fn read_mark(source: &[u8], at: usize, mark: &[u8]) -> Option<usize>
    requires { at ≤ length source.now }
    ensures value { option_map (λ next. (tt, drop next source.now)) result ≡ mark_read mark.now (drop at source.now) }
    ensures within { IfSome result (λ next. next ≤ length source.now) }
{
    if !source[at..].starts_with(mark) {
        return None;
    }
    Some(at + mark.len())
}

/// The version at position `at`, and the position after it; none where there is no such version.
#[tactic(auto, unfolding(kfs_model::proofs::Reading::version_read))]
pub fn read_version(source: &[u8], at: usize) -> Option<(u8, usize)>
    requires { at ≤ length source.now }
    ensures value { seen (λ n. n) source.now result ≡ version_read (drop at source.now) }
    ensures within { IfSome result (λ x. x.1 ≤ length source.now) }
{
    let (version, at) = byte::read(source, at)?;
    if version < 1 || version > LATEST_VERSION {
        return None;
    }
    Some((version, at))
}

#[tactic(auto, unfolding(kfs_model::proofs::Reading::count_read))]
fn read_count(source: &[u8], at: usize) -> Option<(u16, usize)>
    requires { at ≤ length source.now }
    ensures value { seen (λ n. n) source.now result ≡ count_read (drop at source.now) }
    ensures within { IfSome result (λ x. x.1 ≤ length source.now) }
{
    let (count, at) = number16::read(source, at)?;
    if count > ENTRY_LIMIT {
        return None;
    }
    Some((count, at))
}

#[tactic(auto, unfolding(kfs_model::proofs::Reading::log_header_read))]
fn header_of_log(source: &[u8]) -> Option<(LogHeader, usize)>
    ensures value { seen log_header_of source.now result ≡ log_header_read (drop 0 source.now) }
    ensures within { IfSome result (λ x. x.1 ≤ length source.now) }
{
    let at = read_mark(source, 0, LOG_MARK)?;
    let (version, at) = read_version(source, at)?;
    let (client, at) = number32::read(source, at)?;
    let (entries, at) = read_count(source, at)?;
    let header = LogHeader {
        version,
        client,
        entries,
    };
    Some((header, at))
}

#[tactic(auto, unfolding(kfs_model::proofs::Reading::plan_header_read))]
fn header_of_plan(source: &[u8]) -> Option<(PlanHeader, usize)>
    ensures value { seen plan_header_of source.now result ≡ plan_header_read (drop 0 source.now) }
    ensures within { IfSome result (λ x. x.1 ≤ length source.now) }
{
    let at = read_mark(source, 0, PLAN_MARK)?;
    let (version, at) = read_version(source, at)?;
    let (names, at) = number16::read(source, at)?;
    let (nodes, at) = number16::read(source, at)?;
    let (pieces, at) = number32::read(source, at)?;
    let header = PlanHeader {
        version,
        names,
        nodes,
        pieces,
    };
    Some((header, at))
}

/// The header of a log, and the position after it; none where the source doesn't begin with one.
pub fn read_log(source: &[u8]) -> Option<(LogHeader, usize)>
    ensures found { IfSome result (λ x. IsLogHeader (log_header_of x.0) × StandsIn source.now 0 x.1 (log_header (log_header_of x.0))) }
    ensures none { IfNone result (BeginsWithNo IsLogHeader log_header source.now) }
{
    header_of_log(source)
}

/// The header of a plan, and the position after it; none where the source doesn't begin with one.
pub fn read_plan(source: &[u8]) -> Option<(PlanHeader, usize)>
    ensures found { IfSome result (λ x. IsPlanHeader (plan_header_of x.0) × StandsIn source.now 0 x.1 (plan_header (plan_header_of x.0))) }
    ensures none { IfNone result (BeginsWithNo IsPlanHeader plan_header source.now) }
{
    header_of_plan(source)
}

/// Appends a log's header, 11 bytes. `Err` where memory runs out.
pub fn write_log<A: Allocator>(out: &mut Vec<u8, A>, header: LogHeader) -> Result<(), AllocError>
    ensures { OnOk result (out.new.items ≡ out.old.items ++ log_header (log_header_of header)) }
{
    out.extend_from_slice(LOG_MARK)?;
    out.push(header.version)?;
    number32::write(out, &[], &header.client)?;
    number16::write(out, &[], &header.entries)
}

/// Appends a plan's header, 13 bytes. `Err` where memory runs out.
pub fn write_plan<A: Allocator>(out: &mut Vec<u8, A>, header: PlanHeader) -> Result<(), AllocError>
    ensures { OnOk result (out.new.items ≡ out.old.items ++ plan_header (plan_header_of header)) }
{
    out.extend_from_slice(PLAN_MARK)?;
    out.push(header.version)?;
    number16::write(out, &[], &header.names)?;
    number16::write(out, &[], &header.nodes)?;
    number32::write(out, &[], &header.pieces)
}
