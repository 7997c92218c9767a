//! What a client may do by a view.
ghost use Rattle.std.specs.Prelude.{◌≡◌};
ghost use Rattle.kfs_judge_reads.specs.Permissions.{permitted_by_view};

use crate::view::View;
use kfs_mode::{Access, AccessFault, permission};
use std::alloc::Allocator;

impl<A: Allocator + Copy> View<A> {
    /// Whether the client may look a name of the directory up, each given by its number: it has search
    /// permission on the directory (POSIX.1-2017, XBD 4.13). A privileged client has each permission. On
    /// the directories above nothing is asked. Takes no memory.
    pub fn may_find(&self, client: u32, directory: u32) -> Result<(), AccessFault>
        ensures { result ≡ permitted_by_view self.now Access.FindName client directory }
    {
        self.may_access(Access::FindName, client, directory)
    }

    /// Whether the client may list the names of the directory: it has read permission on it (POSIX.1-2017,
    /// opendir()). Else as `may_find`.
    pub fn may_list(&self, client: u32, directory: u32) -> Result<(), AccessFault>
        ensures { result ≡ permitted_by_view self.now Access.ListNames client directory }
    {
        self.may_access(Access::ListNames, client, directory)
    }

    /// Whether the client may read the bytes of the file: it has read permission on it (POSIX.1-2017,
    /// open() with O_RDONLY). Else as `may_find`.
    pub fn may_read(&self, client: u32, file: u32) -> Result<(), AccessFault>
        ensures { result ≡ permitted_by_view self.now Access.ReadBytes client file }
    {
        self.may_access(Access::ReadBytes, client, file)
    }

    /// What the three above answer, the one that is asked for. Takes no memory.
    pub fn may_access(&self, access: Access, client: u32, number: u32) -> Result<(), AccessFault>
        ensures { result ≡ permitted_by_view self.now access client number }
    {
        permission(self.client(client), self.header(number), access)
    }
}
