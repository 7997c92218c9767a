//! A log's pieces, laid over the bytes of a file. The bytes of one block after a log.
ghost use Rattle.std.specs.Prelude.{◌≡◌, ◌+◌, ◌-◌, ◌<◌, ◌≤◌, ◌∷◌, [], drop, length, replicate, slice_get, slice_index, EachIndex, IfSome, IsTrue, IfOk, vec_len};
ghost use Rattle.kfs_types.specs.Views.{piece_of, source_of};
ghost use Rattle.kfs_model.specs.Limits.{block_size};
ghost use Rattle.kfs_model.specs.Run.{byte_at, payload_of};
ghost use Rattle.kfs_desk.specs.Fill.Bytes.{entries_of, pieces_of, HasPayloads, ArePut, ArePutOnAny, AreGivenBy, AreBytesOf};
ghost use Rattle.kfs_model.specs.Device.ShownTree.{shown_tree};
ghost use Rattle.kfs_desk.specs.Fill.Fill.{block_after};

use kfs_image::{Image, read_file};
use kfs_types::{BLOCK_LEN, BLOCK_SIZE, BorrowedEntry, Entry, KeptEntry, Piece, Source};
use std::alloc::{AllocError, Allocator};

/// A log's entries, by reference.
#[derive_where(Clone, Copy)]
pub enum Entries<'a, 's, A: Allocator> {
    /// With names where they lie in the log's bytes.
    Borrowed(&'a [BorrowedEntry<'s>]),
    /// With names that are kept.
    Kept(&'a [KeptEntry<A>]),
}

/// A log, and the pieces that say which bytes it changes.
#[derive_where(Clone, Copy)]
pub struct LogBytes<'a, 's, A: Allocator> {
    /// The bytes that the log was read from.
    pub source: &'a [u8],
    /// The log's entries.
    pub entries: Entries<'a, 's, A>,
    /// Its pieces, ascending by file number and position.
    pub pieces: &'a [Piece],
}

/// The payload of an entry in a list.
macro_rules! payload_at {
    ($log:ident, $entries:ident, $entry:ident) => {
        match $entries.get(usize::from($entry)) {
            Some(
                Entry::Write {
                    number: _,
                    offset: _,
                    payload,
                },
            ) => &$log.source[payload.start..payload.end],
            _ => &[],
        }
    };
}

/// The payload of the entry with this index; empty where the entry isn't a Write, or there is none.
fn payload<'a, A: Allocator>(log: &LogBytes<'a, '_, A>, entry: u16) -> &'a [u8]
    requires { HasPayloads log.now }
    ensures { result.now ≡ payload_of (slice_get (entries_of log.now) entry) }
{
    match log.entries {
        Entries::Borrowed(entries) => payload_at!(log, entries, entry),
        Entries::Kept(entries) => payload_at!(log, entries, entry),
    }
}

/// The bytes without the first `count`.
fn behind(bytes: &[u8], count: usize) -> &[u8]
    ensures { result.now ≡ drop count bytes.now }
{
    &bytes[count.min(bytes.len())..]
}

/// Copies the payload to the front of the bytes, and fills the rest with zero.
fn put_bytes(bytes: &mut [u8], payload: &[u8])
    ensures { EachIndex bytes.new (λ k. slice_index bytes.new k ≡ byte_at payload.now k) }
{
    let count = payload.len().min(bytes.len());
    bytes[..count].copy_from_slice(&payload[..count]);
    bytes[count..].fill(0);
}

/// Fills the bytes from a piece's source, from `distance` bytes behind the piece's start on.
fn put_source<A: Allocator>(
    bytes: &mut [u8],
    log: &LogBytes<'_, '_, A>,
    source: Source,
    distance: usize,
)
    requires { HasPayloads log.now }
    ensures { AreGivenBy (entries_of log.now) (source_of source) distance bytes.new }
{
    match source {
        Source::Zero => bytes.fill(0),
        Source::Payload { entry, place } => {
            let from_place = behind(payload(log, entry), place as usize);
            put_bytes(bytes, behind(from_place, distance));
        }
    }
}

/// Lays a piece over the bytes, which are the file's from position `start` on.
fn put_piece<A: Allocator>(
    bytes: &mut [u8],
    log: &LogBytes<'_, '_, A>,
    piece: &Piece,
    number: u32,
    start: u64,
)
    requires { HasPayloads log.now }
    ensures { ArePut (entries_of log.now) (piece_of piece.now ∷ []) number start bytes.old bytes.new }
{
    let first = piece.start.saturating_sub(start) as usize;
    if piece.number != number || first >= bytes.len() {
        return;
    }
    let distance = start.saturating_sub(piece.start);
    let left = piece.len.saturating_sub(distance) as usize;
    let count = left.min(bytes.len() - first);
    put_source(
        &mut bytes[first..first + count],
        log,
        piece.source,
        distance as usize,
    );
}

/// Lays the pieces over the bytes, which are the file's from position `start` on. A byte in several
/// pieces is that of the first one.
pub(crate) fn put_pieces<A: Allocator>(
    bytes: &mut [u8],
    log: &LogBytes<'_, '_, A>,
    number: u32,
    start: u64,
)
    requires { HasPayloads log.now }
    ensures { ArePut (entries_of log.now) (pieces_of log.now) number start bytes.old bytes.new }
{
    for piece in log.pieces.iter().rev() {
        put_piece(bytes, log, piece, number, start);
    }
}

/// The bytes of the block that begins at position `start` of the file, where one piece of a payload
/// covers it. What stood there doesn't matter then.
pub(crate) fn covering_bytes<'a, A: Allocator>(
    log: &LogBytes<'a, '_, A>,
    number: u32,
    start: u64,
) -> Option<&'a [u8]>
    requires { HasPayloads log.now }
    ensures whole { IfSome result (λ bytes. length bytes.now ≡ block_size) }
    ensures put { IfSome result (λ bytes. ArePutOnAny (entries_of log.now) (pieces_of log.now) number start bytes.now) }
{
    let piece = log.pieces.first()?;
    if !covers_block(piece, number, start) {
        return None;
    }
    let distance = start - piece.start;
    block_of(log, piece.source, distance as usize)
}

/// Whether the piece covers the whole block that begins at this byte of the file.
fn covers_block(piece: &Piece, number: u32, start: u64) -> bool
    ensures number { IsTrue result → piece.now.number ≡ number }
    ensures begins { IsTrue result → piece.now.start ≤ start }
    ensures ends { IsTrue result → start + block_size ≤ piece.now.start + piece.now.len }
{
    piece.number == number
        && piece.start <= start
        && piece.len >= BLOCK_SIZE
        && start - piece.start <= piece.len - BLOCK_SIZE
}

/// A block's bytes of a source, from `distance` bytes behind its piece's start on, if they are all of
/// one payload.
fn block_of<'a, A: Allocator>(
    log: &LogBytes<'a, '_, A>,
    source: Source,
    distance: usize,
) -> Option<&'a [u8]>
    requires { HasPayloads log.now }
    ensures whole { IfSome result (λ bytes. length bytes.now ≡ block_size) }
    ensures given { IfSome result (λ bytes. AreGivenBy (entries_of log.now) (source_of source) distance bytes.now) }
{
    match source {
        Source::Zero => None,
        Source::Payload { entry, place } => {
            let from_place = behind(payload(log, entry), place as usize);
            front_block(behind(from_place, distance))
        }
    }
}

/// The first 4,096 bytes, if there are so many.
fn front_block(bytes: &[u8]) -> Option<&[u8]>
    ensures { IfSome result (λ front. (length front.now ≡ block_size) × EachIndex front.now (λ k. slice_index front.now k ≡ byte_at bytes.now k)) }
{
    if bytes.len() < BLOCK_LEN {
        return None;
    }
    Some(&bytes[..BLOCK_LEN])
}

/// Zero bytes, to be copied. A copy takes fewer instructions than bytes that are set, and `resize` sets
/// them one by one.
static ZEROS: [u8; BLOCK_LEN] = [0; BLOCK_LEN];

/// As many zero bytes as a block has from `first` on and below `end`.
fn zeros(first: usize, end: usize) -> &'static [u8]
    requires order { first ≤ end }
    requires within { end ≤ block_size }
    ensures { result.now ≡ replicate (end - first) 0 }
{
    &ZEROS[first..end]
}

/// Makes the bytes from `first` on and below `end` zero, if there are any. They are a block's at most.
fn clear(bytes: &mut [u8], first: usize, end: usize)
    requires within { end ≤ length bytes.old }
    requires block { length bytes.old ≤ block_size }
    ensures front { EachIndex bytes.new (λ k. k < first → slice_index bytes.new k ≡ slice_index bytes.old k) }
    ensures zero { EachIndex bytes.new (λ k. first ≤ k → k < end → slice_index bytes.new k ≡ 0) }
    ensures behind { EachIndex bytes.new (λ k. end ≤ k → slice_index bytes.new k ≡ slice_index bytes.old k) }
{
    if first < end {
        bytes[first..end].copy_from_slice(zeros(first, end));
    }
}

/// Puts those of a file from position `start` on in place of the bytes, a block's at most; zero behind the
/// file's end, and where there is no file. Condition: the bytes from `held` on are zero already.
fn read_or_clear<A: Allocator>(
    image: &Image<A>,
    number: u32,
    start: u64,
    bytes: &mut [u8],
    held: usize,
)
    requires held { held ≤ length bytes.old }
    requires block { length bytes.old ≤ block_size }
    requires zero { EachIndex bytes.old (λ k. held ≤ k → slice_index bytes.old k ≡ 0) }
    ensures { AreBytesOf (shown_tree image.now) number start bytes.new }
{
    // Where there is no file, no byte is read.
    let read = read_file(image, number, start, bytes).unwrap_or(0);
    clear(bytes, read, held);
}

/// The bytes of a block that begins at position `start` of a file, in this memory; zero behind the file's
/// end, and where there is no file. What the memory holds is read over, and made zero only where it isn't.
fn bytes_before<A: Allocator>(
    memory: Vec<u8, A>,
    image: &Image<A>,
    number: u32,
    start: u64,
) -> Result<Vec<u8, A>, AllocError>
    ensures len { IfOk result (λ bytes. vec_len bytes ≡ block_size) }
    ensures bytes { IfOk result (λ bytes. AreBytesOf (shown_tree image.now) number start bytes.items) }
{
    let mut bytes = memory;
    bytes.truncate(BLOCK_LEN);
    let held = bytes.len();
    bytes.extend_from_slice(zeros(held, BLOCK_LEN))?;
    read_or_clear(image, number, start, bytes.as_mut_slice(), held);
    Ok(bytes)
}

/// These bytes, copied into this memory.
fn copy_into<A: Allocator>(memory: Vec<u8, A>, from: &[u8]) -> Result<Vec<u8, A>, AllocError>
    ensures { IfOk result (λ copy. copy.items ≡ from.now) }
{
    let mut copy = memory;
    copy.clear();
    copy.extend_from_slice(from)?;
    Ok(copy)
}

/// The bytes of a block of a file after the log, in this memory; what it holds doesn't matter. Where one
/// payload covers the block, its bytes are copied, and the file isn't read.
pub(crate) fn block_bytes<A: Allocator>(
    memory: Vec<u8, A>,
    image: &Image<A>,
    log: &LogBytes<'_, '_, A>,
    number: u32,
    block: u32,
) -> Result<Vec<u8, A>, AllocError>
    requires { HasPayloads log.now }
    ensures { IfOk result (λ bytes. bytes.items ≡ block_after (shown_tree image.now) (entries_of log.now) (pieces_of log.now) number block) }
{
    let start = u64::from(block) * BLOCK_SIZE;
    match covering_bytes(log, number, start) {
        Some(whole) => {
            let bytes = copy_into(memory, whole)?;
            Ok(bytes)
        }
        None => {
            let bytes = patched_bytes(memory, image, log, number, block)?;
            Ok(bytes)
        }
    }
}

/// The bytes of a block of the file, with the log's pieces laid over them.
fn patched_bytes<A: Allocator>(
    memory: Vec<u8, A>,
    image: &Image<A>,
    log: &LogBytes<'_, '_, A>,
    number: u32,
    block: u32,
) -> Result<Vec<u8, A>, AllocError>
    requires { HasPayloads log.now }
    ensures { IfOk result (λ bytes. bytes.items ≡ block_after (shown_tree image.now) (entries_of log.now) (pieces_of log.now) number block) }
{
    let start = u64::from(block) * BLOCK_SIZE;
    let mut bytes = bytes_before(memory, image, number, start)?;
    put_pieces(bytes.as_mut_slice(), log, number, start);
    Ok(bytes)
}
