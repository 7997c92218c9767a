//! Logs and plans as bytes.
ghost use Rattle.std.specs.Prelude.{◌≡◌, ◌<◌, ◌^◌, length, IfOk};
ghost use Rattle.kfs_model.specs.Spelling.{IsLog, IsVersion, log_bytes, plan_bytes};
ghost use Rattle.kfs_entry.specs.Answers.{log_of, plan_of, SpansAreWithin};

use crate::codec::headers::{LogHeader, PlanHeader};
use crate::codec::{headers, rows_len, write_rows};
use kfs_types::{Log, Plan};
use std::alloc::{AllocError, Allocator};

/// Writes a log as bytes, in the version that it has. `source` is the bytes that the spans of its
/// payloads point into.
///
/// Condition: the version is 1 or 2, there are at most 4,096 entries, each in the ranges of that
/// version, and the spans lie in `source`. Takes memory for the bytes; `Err` where it is refused.
pub fn encode_log<A: Allocator, B: Allocator>(
    alloc: A,
    log: &Log<B>,
    source: &[u8],
) -> Result<Vec<u8, A>, AllocError>
    requires ranges { IsLog (log_of source.now log.now) }
    requires spans { SpansAreWithin (length source.now) log.now }
    ensures { IfOk result (λ bytes. bytes.items ≡ log_bytes (log_of source.now log.now)) }
{
    let entries = log.entries.as_slice();
    let header = LogHeader {
        version: log.version,
        client: log.client,
        entries: entries.len() as u16,
    };
    let len = rows_len(source, entries).saturating_add(headers::LOG_LEN);
    let mut out = Vec::with_capacity(alloc, len)?;
    headers::write_log(&mut out, header)?;
    write_rows(&mut out, source, entries)?;
    Ok(out)
}

/// Writes a plan as bytes, in the version that it has.
///
/// Condition: the version is 1 or 2, and there are fewer than 2^16 names, 2^16 nodes and 2^32 pieces.
/// Takes memory for the bytes; `Err` where it is refused.
pub fn encode_plan<A: Allocator, B: Allocator>(
    alloc: A,
    plan: &Plan<B>,
) -> Result<Vec<u8, A>, AllocError>
    requires version { IsVersion plan.now.version }
    requires names { length plan.now.names < 2 ^ 16 }
    requires nodes { length plan.now.nodes < 2 ^ 16 }
    requires pieces { length plan.now.pieces < 2 ^ 32 }
    ensures { IfOk result (λ bytes. bytes.items ≡ plan_bytes (plan_of plan.now)) }
{
    let names = plan.names.as_slice();
    let nodes = plan.nodes.as_slice();
    let pieces = plan.pieces.as_slice();
    let header = PlanHeader {
        version: plan.version,
        names: names.len() as u16,
        nodes: nodes.len() as u16,
        pieces: pieces.len() as u32,
    };
    let len = rows_len(&[], names)
        .saturating_add(rows_len(&[], nodes))
        .saturating_add(rows_len(&[], pieces))
        .saturating_add(headers::PLAN_LEN);
    let mut out = Vec::with_capacity(alloc, len)?;
    headers::write_plan(&mut out, header)?;
    write_rows(&mut out, &[], names)?;
    write_rows(&mut out, &[], nodes)?;
    write_rows(&mut out, &[], pieces)?;
    Ok(out)
}
