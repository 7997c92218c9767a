//! What look-ups find at a desk.
ghost use Rattle.std.specs.Prelude.{◌≡◌, ◌≤◌, length};
ghost use Rattle.kfs_server.specs.LookUps.Found.{figures_of, tier_of};
ghost use Rattle.kfs_server.specs.LookUps.Views.{figures_shown, tier_shown};

use kfs_desk::Desk;
use kfs_mode::AccessFault;
use kfs_types::Header;
use std::alloc::Allocator;

/// The most bytes of a file, of names, of leases or of a plan that one look-up is answered.
pub const FOUND_LIMIT: usize = 65_536;

/// The figures of a desk.
#[derive(Clone, Copy, Debug, PartialEq, Eq)]
pub struct Figures {
    /// The moment, as the last tick had it.
    pub moment: u64,
    /// How many rows the docket has: the calls since the last checkpoint before the start.
    pub rows: u32,
    /// How many places of tier 0 hold no block of a file.
    pub first: u32,
    /// The same of tier 1.
    pub second: u32,
    /// The same of tier 2.
    pub third: u32,
}

/// The places of a tier.
#[derive(Clone, Copy, Debug, PartialEq, Eq)]
pub struct TierFigures {
    /// How many there are.
    pub size: u32,
    /// How many of them hold no block of a file.
    pub free: u32,
}

/// What a look-up finds.
#[derive(Drop)]
pub enum Found<B: Allocator> {
    /// 1: the header of the node, or none where no node has the number.
    NodeIs(Option<Header>),
    /// 2: the figures of the desk.
    StateIs(Figures),
    /// 3: the journal was begun anew.
    Renewed,
    /// 4: the client may not ask for it.
    Denied(AccessFault),
    /// 5: where the name leads, or none where the directory has no such name.
    LeadsTo(Option<u32>),
    /// 6: names and the numbers that they lead to, as bytes; and whether the directory has more behind them.
    NamesAre { more: bool, bytes: Vec<u8, B> },
    /// 7: bytes of a file.
    BytesAre(Vec<u8, B>),
    /// 8: the places of the three tiers.
    PlacesAre(TierFigures, TierFigures, TierFigures),
    /// 9: leases of the sender, as bytes; and whether it has more behind them.
    LeasesAre { more: bool, bytes: Vec<u8, B> },
    /// 10, 1: the plan of the log.
    PlanIs(Vec<u8, B>),
    /// 10, 0: an entry of the log has a fault, whatever leases its client holds.
    NoPlan,
    /// 10, 2: the plan has more than `FOUND_LIMIT` bytes.
    PlanTooLong,
}

/// What of a list is answered, as bytes, and whether there is more.
#[derive(Drop)]
pub(crate) struct Listing<B: Allocator> {
    pub more: bool,
    pub bytes: Vec<u8, B>,
}

/// The figures of now.
pub(crate) fn figures_now<A: Allocator + Copy>(desk: &Desk<A>) -> Figures
    ensures { figures_shown result ≡ figures_of desk.now }
{
    let image = desk.image();
    Figures {
        moment: desk.leases().moment(),
        rows: desk.docket().len(),
        first: image.free(0),
        second: image.free(1),
        third: image.free(2),
    }
}

/// The places of a tier. None of a tier over 2.
pub(crate) fn tier_now<A: Allocator + Copy>(desk: &Desk<A>, tier: u8) -> TierFigures
    ensures { tier_shown result ≡ tier_of desk.now tier }
{
    let image = desk.image();
    TierFigures {
        size: image.tier_size(tier),
        free: image.free(tier),
    }
}
