//! What files were told: a list that contracts alone see. `new` and `note` are proved by hand.
ghost use Rattle.std.specs.Prelude.{◌≡◌, List, [], ◌∷◌};
ghost use Rattle.std.specs.Borrow.{ftrue};
ghost use Rattle.kfs_journal_files.specs.Events.{Event, event_of};

use std::marker::{Model, PhantomData};

/// The calls that files were told to make, the newest first. They take no memory.
#[derive(Drop)]
pub struct Told {
    marker: PhantomData<u8>,
    pub ghost events: { List Event },
}

impl Model for Told {
    ghost also_owns = { λ _. ftrue };
}

impl Told {
    /// No call.
    pub(crate) fn new() -> Told
        ensures { result.events ≡ [] }
    {
        Told {
            marker: PhantomData,
        }
    }

    /// Notes a call. The numbers are its kind, its file (0 or 1), and an offset or a length; the bytes are those
    /// that were written or read. At run time this is nothing.
    pub(crate) fn note(&mut self, _numbers: &[u64], _bytes: &[u8])
        ensures { self.new.events ≡ event_of _numbers.now _bytes.now ∷ self.old.events }
    {}
}
