//! What the types of a plan's fields say of its rows.
ghost use Rattle.std.specs.Prelude.{◌<◌, ◌^◌, Some, All};
ghost use Rattle.std.specs.Option.{option_map};
ghost use Rattle.kfs_model.specs.Spelling.{IsHeader, IsName, IsNameRow, IsNodeRow, IsPiece, IsSource};
ghost use Rattle.kfs_types.specs.Views.{header_of, name_row_of, node_row_of, piece_of, source_of};
ghost use Rattle.kfs_plan_maker.specs.Rows.{RowsFit};

use kfs_entry::{Header, NameRow, NodeRow, Piece, Plan, Source};
use std::alloc::Allocator;

/// Tells the prover that each row of the plan can be encoded. It goes over the rows once and changes
/// nothing. Takes no memory.
///
/// The prover knows the range of a number once it is passed by value, and of a name once it is read. So
/// each field is passed on, and what comes back is thrown away.
pub fn tell_rows<A: Allocator>(plan: &Plan<A>)
    ensures { RowsFit plan.now }
{
    tell_names(plan.names.as_slice());
    tell_nodes(plan.nodes.as_slice());
    tell_pieces(plan.pieces.as_slice());
}

fn tell_names(rows: &[NameRow])
    ensures { All (λ row. IsNameRow (name_row_of row)) rows.now }
{
    for row in rows {
        tell_name(row);
    }
}

fn tell_name(row: &NameRow)
    ensures { IsNameRow (name_row_of row.now) }
{
    let _bytes = row.name.as_bytes();
    let _numbers = (number32(row.dir), number32(row.number));
}

fn tell_nodes(rows: &[NodeRow])
    ensures { All (λ row. IsNodeRow (node_row_of row)) rows.now }
{
    for row in rows {
        tell_node(*row);
    }
}

fn tell_node(row: NodeRow)
    ensures { IsNodeRow (node_row_of row) }
{
    let _number = number32(row.number);
    tell_header(row.now);
}

fn tell_header(header: Option<Header>)
    ensures { IsHeader (option_map header_of header) }
{
    match header {
        Some(header) => tell_fields(&header),
        None => (),
    }
}

fn tell_fields(header: &Header)
    ensures { IsHeader (Some (header_of header.now)) }
{
    let _short = (number16(header.mode), number16(header.links));
    let _ids = (number32(header.uid), number32(header.gid));
    let _size = number64(header.size);
}

fn tell_pieces(rows: &[Piece])
    ensures { All (λ row. IsPiece (piece_of row)) rows.now }
{
    for row in rows {
        tell_piece(row);
    }
}

fn tell_piece(row: &Piece)
    ensures { IsPiece (piece_of row.now) }
{
    let _number = number32(row.number);
    let _range = (number64(row.start), number64(row.len));
    tell_source(row.source);
}

fn tell_source(source: Source)
    ensures { IsSource (source_of source) }
{
    match source {
        Source::Zero => (),
        Source::Payload { entry, place } => {
            let _place = (number16(entry), number32(place));
        }
    }
}

/// The number as it is, with what its type says of it.
fn number16(number: u16) -> u16
    ensures { number < 2 ^ 16 }
{
    number
}

fn number32(number: u32) -> u32
    ensures { number < 2 ^ 32 }
{
    number
}

fn number64(number: u64) -> u64
    ensures { number < 2 ^ 64 }
{
    number
}
