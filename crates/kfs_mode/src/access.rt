//! What a client may do with a node without changing it.
ghost use Rattle.std.specs.Prelude.{◌≡◌};
ghost use Rattle.std.specs.Option.{option_map};
ghost use Rattle.kfs_types.specs.Views.{header_of};
ghost use Rattle.kfs_model.specs.Access as access;
ghost use Rattle.kfs_mode.specs.Access.{permitted_between, permitted_by_header, permitted_if};
ghost use Rattle.kfs_mode.specs.Mode.{want_shown};

use crate::class::{Want, may};
use crate::client::Client;
use kfs_types::{Header, Kind};
use thiserror::Error;

/// What a client may ask of a node without changing it.
#[derive(Clone, Copy, Debug, PartialEq, Eq)]
pub enum Access {
    /// To look a name of a directory up.
    FindName,
    /// To list the names of a directory.
    ListNames,
    /// To read the bytes of a file.
    ReadBytes,
}

/// Why a client may not look a name up, list names, or read a file. The first that applies is answered.
#[derive(Clone, Copy, Debug, PartialEq, Eq, Error)]
pub enum AccessFault {
    /// 1: the view has no such client.
    #[error("UnknownClient")]
    UnknownClient,
    /// 2: no node has the number.
    #[error("NoSuchNode")]
    NoSuchNode,
    /// 3, for names: the node isn't a directory.
    #[error("NotDirectory")]
    NotDirectory,
    /// 3, for bytes: the node is a directory.
    #[error("IsDirectory")]
    IsDirectory,
    /// 4, for one name: the client may not search the directory.
    #[error("NoSearch")]
    NoSearch,
    /// 4, for all names and for bytes: the client may not read the node.
    #[error("NoRead")]
    NoRead,
}

/// What the client, if there is one, may do with the node of this header, if there is one.
pub fn permission(
    client: Option<&Client>,
    header: Option<Header>,
    access: Access,
) -> Result<(), AccessFault>
    ensures { result ≡ permitted_between (option_map (λ row. row.now) client.entry) (option_map header_of header) access }
{
    let Some(client) = client else {
        return Err(AccessFault::UnknownClient);
    };
    let Some(header) = header else {
        return Err(AccessFault::NoSuchNode);
    };
    by_header(header, client, access)
}

/// What a node with this header permits the client.
fn by_header(header: Header, client: &Client, access: Access) -> Result<(), AccessFault>
    ensures { result ≡ permitted_by_header (header_of header) client.now access }
{
    let is_directory = header.kind == Kind::Directory;
    match access {
        Access::ReadBytes if is_directory => Err(AccessFault::IsDirectory),
        Access::ReadBytes => by_bits(header, client, Want::Read, AccessFault::NoRead),
        _ if !is_directory => Err(AccessFault::NotDirectory),
        Access::FindName => by_bits(header, client, Want::Search, AccessFault::NoSearch),
        Access::ListNames => by_bits(header, client, Want::Read, AccessFault::NoRead),
    }
}

/// Ok where the bits permit it to the client, else the fault.
fn by_bits(
    header: Header,
    client: &Client,
    want: Want,
    fault: AccessFault,
) -> Result<(), AccessFault>
    ensures { result ≡ permitted_if (access.may_header client.now (header_of header) (want_shown want)) fault }
{
    if may(client, header.uid, header.gid, header.mode, want) {
        Ok(())
    } else {
        Err(fault)
    }
}
