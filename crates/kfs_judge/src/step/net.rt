//! The net change of a log. The sizes of the files that a log changes or reaches, before and after it.
ghost use Rattle.std.specs.Prelude.{◌≡◌, [], IfOk, None, min, ℕ};
ghost use Rattle.std.specs.Option.{option_map};
ghost use Rattle.kfs_types.specs.Views.{header_of};
ghost use Rattle.kfs_judge_reads.specs.Recorders.{LooksAtHeader, LooksAtName};
ghost use Rattle.kfs_judge_reads.specs.Draft.Overlay.{over};
ghost use Rattle.kfs_judge.specs.Step.Rows.{IsRowOfName, IsRowOfNode};
ghost use Rattle.kfs_judge.specs.Step.Nets.{AreNamesOf, AreNodesOf, LooksOver};
ghost use Rattle.std.specs.List.{AllByRecursion};
ghost use Rattle.kfs_model.specs.Sight.{Sight};
ghost use Rattle.kfs_judge.specs.Step.FileSizes.{AreSizesOver};
ghost use Rattle.kfs_pieces.specs.Sizes.{SizesAscend, IsSize, size_in};
ghost use Rattle.kfs_model.specs.Limits.{size_limit};
ghost use Rattle.kfs_judge_reads.specs.Draft.Few.{list_of};

use kfs_entry::{BorrowedRow, NameRow, NodeRow};
use kfs_image_nodes::Header;
use kfs_judge_reads::{Draft, NameKey, Recorder};
use kfs_pieces::FileSize;
use kfs_types::SIZE_LIMIT;
use std::alloc::{AllocError, Allocator};

/// A row for each name that leads elsewhere than before, ascending.
pub fn name_rows<'e, 's, A: Allocator + Copy>(
    alloc: A,
    draft: &Draft<'e, 's, A>,
    recorder: &mut Recorder<'_, 'e, 's, A>,
) -> Result<Vec<BorrowedRow<'s>, A>, AllocError>
    ensures { LooksOver draft.now recorder.old recorder.new result (λ rows before. AreNamesOf before.sight (over draft.now before.sight) rows.items) }
{
    if let Some((key, now)) = draft.targets().only() {
        let row = name_row(recorder, key, *now)?;
        let rows = list_of(alloc, row)?;
        return Ok(rows);
    }
    tree_name_rows(alloc, draft, recorder)
}

/// The same, where more than one name was written, or none.
fn tree_name_rows<'e, 's, A: Allocator + Copy>(
    alloc: A,
    draft: &Draft<'e, 's, A>,
    recorder: &mut Recorder<'_, 'e, 's, A>,
) -> Result<Vec<BorrowedRow<'s>, A>, AllocError>
    requires { draft.now.names.only ≡ None }
    ensures { LooksOver draft.now recorder.old recorder.new result (λ rows before. AreNamesOf before.sight (over draft.now before.sight) rows.items) }
{
    let mut rows = room_for_names(alloc, draft)?;
    for (key, now) in draft.targets().tree().iter() {
        if let Some(row) = name_row(recorder, key, *now)? {
            rows.push(row)?;
        }
    }
    Ok(rows)
}

/// No row, with room for one of each name that was written.
fn room_for_names<'s, A: Allocator + Copy>(
    alloc: A,
    draft: &Draft<'_, 's, A>,
) -> Result<Vec<BorrowedRow<'s>, A>, AllocError>
    ensures { IfOk result (λ rows. rows.items ≡ []) }
{
    Vec::with_capacity(alloc, draft.targets().tree().len())
}

/// The list of what there is.
fn list_of<T: Drop, A: Allocator + Copy>(alloc: A, it: Option<T>) -> Result<Vec<T, A>, AllocError>
    ensures { IfOk result (λ list. list.items ≡ list_of it) }
{
    let mut list = Vec::new(alloc);
    if let Some(it) = it {
        list.push(it)?;
    }
    Ok(list)
}

/// The row of a name that leads to `now`, if it led elsewhere before.
fn name_row<'e, 's, A: Allocator + Copy>(
    recorder: &mut Recorder<'_, 'e, 's, A>,
    key: &NameKey<'e, 's>,
    now: Option<u32>,
) -> Result<Option<BorrowedRow<'s>>, AllocError>
    ensures { LooksAtName recorder.old recorder.new result key.now (λ row before. IsRowOfName before.sight key.now now row) }
{
    let before = recorder.target(key)?;
    if before == now {
        return Ok(None);
    }
    let row = NameRow {
        dir: key.dir(),
        name: key.name().again(),
        number: now.unwrap_or(0),
    };
    Ok(Some(row))
}

/// A row for each node with another header than before, ascending.
pub fn node_rows<A: Allocator + Copy>(
    alloc: A,
    draft: &Draft<'_, '_, A>,
    recorder: &mut Recorder<'_, '_, '_, A>,
) -> Result<Vec<NodeRow, A>, AllocError>
    ensures { LooksOver draft.now recorder.old recorder.new result (λ rows before. AreNodesOf before.sight (over draft.now before.sight) rows.items) }
{
    if let Some((number, now)) = draft.headers().only() {
        let row = node_row(recorder, *number, *now)?;
        let rows = list_of(alloc, row)?;
        return Ok(rows);
    }
    tree_node_rows(alloc, draft, recorder)
}

/// The same, where more than one header was written, or none.
fn tree_node_rows<A: Allocator + Copy>(
    alloc: A,
    draft: &Draft<'_, '_, A>,
    recorder: &mut Recorder<'_, '_, '_, A>,
) -> Result<Vec<NodeRow, A>, AllocError>
    requires { draft.now.heads.only ≡ None }
    ensures { LooksOver draft.now recorder.old recorder.new result (λ rows before. AreNodesOf before.sight (over draft.now before.sight) rows.items) }
{
    let mut rows = Vec::new(alloc);
    for (number, now) in draft.headers().tree().iter() {
        if let Some(row) = node_row(recorder, *number, *now)? {
            rows.push(row)?;
        }
    }
    Ok(rows)
}

/// The row of a node whose header is `now`, if it was another before.
fn node_row<A: Allocator + Copy>(
    recorder: &mut Recorder<'_, '_, '_, A>,
    number: u32,
    now: Option<Header>,
) -> Result<Option<NodeRow>, AllocError>
    ensures { LooksAtHeader recorder.old recorder.new result number (λ row before. IsRowOfNode before.sight number (option_map header_of now) row) }
{
    let before = recorder.header(number)?;
    if before == now {
        return Ok(None);
    }
    Ok(Some(NodeRow { number, now }))
}

/// The sizes of each node whose header an entry wrote, ascending by number. After the log none is over
/// 2^32.
pub fn file_sizes<A: Allocator + Copy>(
    alloc: A,
    draft: &Draft<'_, '_, A>,
    recorder: &mut Recorder<'_, '_, '_, A>,
) -> Result<Vec<FileSize, A>, AllocError>
    ensures looks { LooksOver draft.now recorder.old recorder.new result (λ sizes before. AreSizesOver draft.now before.sight sizes.items) }
    ensures ascending { IfOk result (λ sizes. SizesAscend 0 sizes.items) }
    ensures short { IfOk result (λ sizes. AllByRecursion IsSize sizes.items) }
{
    if let Some((number, now)) = draft.headers().only() {
        let before = recorder.header(*number)?;
        let sizes = list_of(alloc, Some(file_size(*number, before, *now)))?;
        return Ok(sizes);
    }
    tree_file_sizes(alloc, draft, recorder)
}

/// The same, where more than one header was written, or none.
fn tree_file_sizes<A: Allocator + Copy>(
    alloc: A,
    draft: &Draft<'_, '_, A>,
    recorder: &mut Recorder<'_, '_, '_, A>,
) -> Result<Vec<FileSize, A>, AllocError>
    requires { draft.now.heads.only ≡ None }
    ensures looks { LooksOver draft.now recorder.old recorder.new result (λ sizes before. AreSizesOver draft.now before.sight sizes.items) }
    ensures ascending { IfOk result (λ sizes. SizesAscend 0 sizes.items) }
    ensures short { IfOk result (λ sizes. AllByRecursion IsSize sizes.items) }
{
    let mut sizes = Vec::new(alloc);
    for (number, now) in draft.headers().tree().iter() {
        let before = recorder.header(*number)?;
        sizes.push(file_size(*number, before, *now))?;
    }
    Ok(sizes)
}

/// The sizes of a node with these headers before and now.
fn file_size(number: u32, before: Option<Header>, now: Option<Header>) -> FileSize
    ensures number { result.number ≡ number }
    ensures before { (s : Sight) → s.head number ≡ option_map header_of before → size_in s number ≡ result.before }
    ensures after { (s : Sight) → s.head number ≡ option_map header_of now → min (size_in s number) size_limit ≡ result.after }
    ensures short { IsSize result }
{
    FileSize {
        number,
        before: header_size(before),
        after: header_size(now).min(SIZE_LIMIT as u64),
    }
}

/// The size in a header; 0 where there is none.
fn header_size(header: Option<Header>) -> u64
    ensures { (s : Sight) (n : ℕ) → s.head n ≡ option_map header_of header → size_in s n ≡ result }
{
    match header {
        Some(header) => header.size,
        None => 0,
    }
}
