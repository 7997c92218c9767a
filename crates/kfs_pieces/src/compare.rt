//! A plan's pieces compared with right ones, however either list is cut. What is left of a list that is
//! used up from its front.
ghost use Rattle.std.specs.Prelude.{◌≡◌, ◌+◌, ◌<◌, ◌≤◌, ◌^◌, ℕ, List, drop, map, IfSome, MatchOption, Option, None, Some};
ghost use Rattle.std.specs.Option.{option_map};
ghost use Rattle.std.specs.List.{AllByRecursion};
ghost use Rattle.kfs_types.specs.Views.{piece_of};
ghost use Rattle.kfs_pieces.specs.PiecesApart.{begins_alike, behind_piece, first_apart, without_front};
ghost use Rattle.kfs_pieces.specs.Lefts.{FrontIsInRange, PieceIsInRange, pieces_left};
ghost use Rattle.kfs_pieces.specs.Rests.{rest_of};

use kfs_types::{Piece, Source};

/// Whether both begin at the same byte, and with the same source.
fn begin_alike(piece: &Piece, right: &Piece) -> bool
    ensures { result ≡ begins_alike (piece_of piece.now) (piece_of right.now) }
{
    if piece.number != right.number || piece.start != right.start {
        return false;
    }
    match (piece.source, right.source) {
        (Source::Zero, Source::Zero) => true,
        (
            Source::Payload { entry, place },
            Source::Payload {
                entry: other,
                place: there,
            },
        ) => entry == other && place == there,
        _ => false,
    }
}

/// The piece without its first `distance` bytes.
fn cut_front(piece: Piece, distance: u64) -> Piece
    requires within { distance ≤ piece.len }
    requires short { FrontIsInRange (piece_of piece) distance }
    ensures { piece_of result ≡ without_front distance (piece_of piece) }
{
    let source = match piece.source {
        Source::Zero => Source::Zero,
        Source::Payload { entry, place } => Source::Payload {
            entry,
            place: place + distance as u32,
        },
    };
    Piece {
        number: piece.number,
        start: piece.start + distance,
        len: piece.len - distance,
        source,
    }
}

/// What is left behind a piece; none where the piece differs from the bytes that are left.
fn left_behind(right: &[Piece], left: Rest<Piece>, piece: &Piece) -> Option<Rest<Piece>>
    requires short { AllByRecursion PieceIsInRange (rest_of right.now left) }
    ensures behind { option_map (λ after. pieces_left right.now after) result ≡ behind_piece (piece_of piece.now) (pieces_left right.now left) }
    ensures short { IfSome result (λ after. AllByRecursion PieceIsInRange (rest_of right.now after)) }
{
    let mut wanted = *piece;
    let mut left = left;
    while let Some(front) = left.front {
        if !begin_alike(&wanted, &front) {
            return None;
        }
        if wanted.len < front.len {
            let back = cut_front(front, wanted.len);
            return Some(Rest {
                front: Some(back),
                next: left.next,
            });
        }
        if wanted.len == front.len {
            return Some(from_next(right, left.next));
        }
        wanted = cut_front(wanted, front.len);
        left = from_next(right, left.next);
    }
    None
}

/// The index of the first wrong piece: empty, or different from the next bytes of the right list. If
/// all agree but bytes are missing at the end, the number of pieces. None if nothing is wrong. Takes no
/// memory.
pub fn first_piece_apart(pieces: &[Piece], right: &[Piece]) -> Option<usize>
    requires { AllByRecursion PieceIsInRange right.now }
    ensures { result ≡ first_apart 0 (map piece_of pieces.now) (map piece_of right.now) }
{
    let mut left = from_next(right, 0);
    for (index, piece) in pieces.iter().enumerate() {
        if piece.len == 0 {
            return Some(index);
        }
        match left_behind(right, left, piece) {
            Some(behind) => left = behind,
            None => return Some(index),
        }
    }
    if left.front.is_some() {
        Some(pieces.len())
    } else {
        None
    }
}

/// What is left of a list: a first item, perhaps without its front, and those from index `next` on.
#[derive(Clone, Copy)]
pub(crate) struct Rest<T> {
    pub front: Option<T>,
    pub next: usize,
}

/// The list from index `next` on.
pub(crate) fn from_next<T: Copy>(list: &[T], next: usize) -> Rest<T>
    ensures { rest_of list.now result ≡ drop next list.now }
{
    if next < list.len() {
        Rest {
            front: Some(list[next]),
            next: next + 1,
        }
    } else {
        Rest { front: None, next }
    }
}
