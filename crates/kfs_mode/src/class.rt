//! Who may do what, by a node's permission bits (POSIX.1-2017, XBD 4.5, "File Access Permissions").
ghost use Rattle.std.specs.Prelude.{◌≡◌, ◌<◌, ◌≤◌};
ghost use Rattle.kfs_model.specs.Access as access;
ghost use Rattle.kfs_mode.specs.Mode.{class_shown, want_shown};

use crate::client::Client;

/// The class of a node's permission bits that counts for a client. Exactly one of the three does.
#[derive(Clone, Copy, Debug, PartialEq, Eq)]
pub enum Class {
    /// The client's uid is the node's.
    Owner,
    /// The client isn't the owner, and its gid or one of its supplementary groups is the node's gid.
    Group,
    /// Neither.
    Other,
}

/// What a client wants to do with a node.
#[derive(Clone, Copy, Debug, PartialEq, Eq)]
pub enum Want {
    /// To read a file's bytes: bit 4 of the class.
    Read,
    /// To change a file's bytes, or a directory's names: bit 2 of the class.
    Write,
    /// To use the names of a directory: bit 1 of the class.
    Search,
}

impl Class {
    /// The value of the class's lowest bit in a mode.
    fn unit(self) -> u16
        ensures unit { result ≡ access.class_unit (class_shown self) }
        ensures range { (0 < result) × (result ≤ 64) }
    {
        match self {
            Class::Owner => 64,
            Class::Group => 8,
            Class::Other => 1,
        }
    }
}

impl Want {
    /// The value of the bit within its class.
    fn value(self) -> u16
        ensures value { result ≡ access.bit_value (want_shown self) }
        ensures range { (0 < result) × (result ≤ 4) }
    {
        match self {
            Want::Read => 4,
            Want::Write => 2,
            Want::Search => 1,
        }
    }
}

/// The class that counts for the client on a node with this uid and gid: owner where the uids are
/// equal, else group where one of the client's groups is the node's, else other. Takes no memory.
pub fn class_of(client: &Client, uid: u32, gid: u32) -> Class
    ensures { class_shown result ≡ access.class_of client.now uid gid }
{
    if client.uid() == uid {
        Class::Owner
    } else if client.has_group(gid) {
        Class::Group
    } else {
        Class::Other
    }
}

/// Whether the client may do this with a node of this uid, gid and mode (0 to 0o1777). A privileged
/// client always may; any other may where the mode has the bit in the one class that counts. Takes no
/// memory.
pub fn may(client: &Client, uid: u32, gid: u32, mode: u16, want: Want) -> bool
    ensures { result ≡ access.may client.now uid gid mode (want_shown want) }
{
    let bit = class_of(client, uid, gid).unit() * want.value();
    client.is_privileged() || mode / bit % 2 == 1
}
