//! Judging one entry: which of its checks is the first to fail.
ghost use Rattle.std.specs.Prelude.{◌≡◌, ◌+ℤ◌, pos, nat_lt, is_none, not, ◌&&◌, ◌||◌, ◌<◌, ◌≤◌, map, [], ◌∷◌, IfOk, IfSome};
ghost use Rattle.std.specs.Option.{option_map};
ghost use Rattle.std.specs.Ordering.{int_eq};
ghost use Rattle.kfs_model.specs.Limits.{link_limit};
ghost use Rattle.kfs_types.specs.Views.{header_of, kind_of};
ghost use Rattle.kfs_model.specs.Access.{is_sticky, may_header, may_set_group};
ghost use Rattle.kfs_model.specs.Check as checks;
ghost use Rattle.kfs_model.specs.Sight as sight;
ghost use Rattle.kfs_model.specs.Sight.{ClientSight, CountOf, LeaseOn, ParentOf};
ghost use Rattle.kfs_mode.specs.Mode.{want_shown};
ghost use Rattle.kfs_judge_reads.specs.Recorders.{AnswersLook, LooksAtHeader, LooksAtHeaders, LooksAtName};
ghost use Rattle.kfs_judge.specs.Check.Checks.{check_of, reason_of, entry_context_in, AnswersClimb, JudgesAll, JudgesCheck, IsOfHeader, IsOfRight, LeadsOn, StopsAtMoved, is_granted_in, may_remove_in, parent_in, sight_in};

use crate::check::check::{Check, Reason};
use kfs_image_nodes::{Header, Kind};
use kfs_judge_reads::{Draft, NameKey, Recorder, Way};
use kfs_mode::{Client, Want, may};
use kfs_types::{CLIMB_LIMIT, LINK_LIMIT, SIZE_LIMIT};
use std::alloc::{AllocError, Allocator};

/// The bit of a mode that is the restricted deletion flag, `S_ISVTX` (POSIX `<sys/stat.h>`).
const STICKY: u16 = 0o1000;

/// Judges the next entry of a log: it has the log's client, and what the entries so far have changed.
#[derive(Clone, Copy)]
pub struct EntryJudge<'a, 'e, 's, A: Allocator> {
    /// The log's client.
    pub client: &'a Client,
    /// What the entries so far have changed.
    pub draft: &'a Draft<'e, 's, A>,
}

impl<'e, 's, A: Allocator + Copy> EntryJudge<'_, 'e, 's, A> {
    /// The node's header now, or none.
    pub fn header(
        &self,
        recorder: &mut Recorder<'_, 'e, 's, A>,
        number: u32,
    ) -> Result<Option<Header>, AllocError>
        ensures { LooksAtHeader recorder.old recorder.new result number (λ header before. (sight_in self.now before).head number ≡ option_map header_of header) }
    {
        match self.draft.header(number) {
            Some(header) => Ok(header),
            None => recorder.header(number),
        }
    }

    /// The node's kind now; a file's where there is no node.
    pub fn kind(
        &self,
        recorder: &mut Recorder<'_, 'e, 's, A>,
        number: u32,
    ) -> Result<Kind, AllocError>
        ensures { LooksAtHeader recorder.old recorder.new result number (λ kind before. sight.kind_shown ((sight_in self.now before).head number) ≡ kind_of kind) }
    {
        let header = self.header(recorder, number)?;
        Ok(kind_in(header))
    }

    /// The number that the name leads to now, or none.
    pub fn target(
        &self,
        recorder: &mut Recorder<'_, 'e, 's, A>,
        key: &NameKey<'e, 's>,
    ) -> Result<Option<u32>, AllocError>
        ensures { LooksAtName recorder.old recorder.new result key.now (λ number before. (sight_in self.now before).name key.now.0 key.now.1 ≡ number) }
    {
        match self.draft.target(key) {
            Some(number) => Ok(number),
            None => recorder.target(key),
        }
    }

    fn is_permitted(
        &self,
        recorder: &mut Recorder<'_, 'e, 's, A>,
        number: u32,
        want: Want,
    ) -> Result<bool, AllocError>
        ensures { LooksAtHeader recorder.old recorder.new result number (λ granted before. is_granted_in self.now before want number ≡ granted) }
    {
        let header = self.header(recorder, number)?;
        Ok(may_want(self.client, header, want))
    }

    /// The reason of the first check that fails, if one does. `Err` where memory runs out.
    pub fn first_fault(
        &self,
        recorder: &mut Recorder<'_, 'e, 's, A>,
        checks: &[Check<'_, 'e, 's>],
    ) -> Result<Option<Reason>, AllocError>
        ensures { JudgesAll self.now recorder.old recorder.new result (λ _. map check_of checks.now) }
    {
        for check in checks {
            if let Some(reason) = self.fault(recorder, check)? {
                return Ok(Some(reason));
            }
        }
        Ok(None)
    }

    #[tactic(auto, unfolding(kfs_model::specs::Check::fault, kfs_model::specs::Check::cells))]
    fn fault(
        &self,
        recorder: &mut Recorder<'_, 'e, 's, A>,
        check: &Check<'_, 'e, 's>,
    ) -> Result<Option<Reason>, AllocError>
        ensures { JudgesCheck self.now recorder.old recorder.new result check.now }
    {
        match check {
            Check::NameIsFree(key) => {
                let number = self.target(recorder, key)?;
                Ok(unless(number.is_none(), Reason::NameTaken))
            }
            Check::IsLeased(number) => {
                let leased = self.is_leased(recorder, *number)?;
                Ok(unless(leased, Reason::NoLease(*number)))
            }
            Check::HasNoNames(number) => {
                let empty = self.has_no_names(recorder, *number)?;
                Ok(unless(empty, Reason::NotEmpty))
            }
            Check::NumberIsGranted(number) => {
                let granted = self.client.is_granted(*number);
                Ok(unless(granted, Reason::NumberNotGranted))
            }
            Check::NumberIsFree(number) => {
                let free = self.is_number_free(recorder, *number)?;
                Ok(unless(free, Reason::NumberTaken))
            }
            Check::EndIsInRange(end) => Ok(unless(*end <= SIZE_LIMIT, Reason::TooBig)),
            Check::IsNotAbove { node, dir } => {
                let meets = self.climb_meets(recorder, *node, *dir)?;
                Ok(unless(!meets, Reason::BelowItself))
            }
            Check::MaySearch(_)
            | Check::MayWrite(_)
            | Check::IsOwned(_)
            | Check::MaySetGroup(_)
            | Check::MayRemove { .. } => self.right_fault(recorder, check),
            _ => self.header_fault(recorder, check),
        }
    }

    /// The reason of a check of what the client may do, if it fails.
    #[tactic(auto, unfolding(kfs_model::specs::Check::fault, kfs_model::specs::Check::cells))]
    fn right_fault(
        &self,
        recorder: &mut Recorder<'_, 'e, 's, A>,
        check: &Check<'_, 'e, 's>,
    ) -> Result<Option<Reason>, AllocError>
        requires { IsOfRight check.now }
        ensures { JudgesCheck self.now recorder.old recorder.new result check.now }
    {
        match check {
            Check::MaySearch(number) => {
                let granted = self.is_permitted(recorder, *number, Want::Search)?;
                Ok(unless(granted, Reason::NoSearch))
            }
            Check::MayWrite(number) => {
                let granted = self.may_write(recorder, *number)?;
                Ok(unless(granted, Reason::NoWrite))
            }
            Check::IsOwned(number) => {
                let header = self.header(recorder, *number)?;
                Ok(unless(owns(self.client, header), Reason::NotOwner))
            }
            Check::MaySetGroup(group) => {
                let allowed = may_set_group(self.client, *group);
                Ok(unless(allowed, Reason::NotInGroup))
            }
            Check::MayRemove { dir, number } => {
                let allowed = self.may_remove(recorder, *dir, *number)?;
                Ok(unless(allowed, Reason::Sticky))
            }
            // `fault` sends no other check here. The condition says so, and the prover wants each case.
            _ => unreachable!(),
        }
    }

    /// The reason of a check of a header, if it fails.
    #[tactic(auto, unfolding(kfs_model::specs::Check::fault, kfs_model::specs::Check::cells))]
    fn header_fault(
        &self,
        recorder: &mut Recorder<'_, 'e, 's, A>,
        check: &Check<'_, 'e, 's>,
    ) -> Result<Option<Reason>, AllocError>
        requires { IsOfHeader check.now }
        ensures { JudgesCheck self.now recorder.old recorder.new result check.now }
    {
        match check {
            Check::Exists(number) => {
                let header = self.header(recorder, *number)?;
                Ok(unless(header.is_some(), Reason::NoSuchNode))
            }
            Check::IsADirectory(number) => {
                let header = self.header(recorder, *number)?;
                Ok(unless(is_directory(header), Reason::NotDirectory))
            }
            Check::IsAFile(number) => {
                let header = self.header(recorder, *number)?;
                Ok(unless(!is_directory(header), Reason::IsDirectory))
            }
            Check::HasRoomForLink(number) => {
                let header = self.header(recorder, *number)?;
                Ok(unless(has_room_for_link(header), Reason::TooManyLinks))
            }
            // `fault` has answered each other check. The condition says so, and the prover wants each case.
            _ => unreachable!(),
        }
    }

    fn may_write(
        &self,
        recorder: &mut Recorder<'_, 'e, 's, A>,
        number: u32,
    ) -> Result<bool, AllocError>
        ensures { LooksAtHeader recorder.old recorder.new result number (λ granted before. checks.may_write (entry_context_in self.now before) number ≡ granted) }
    {
        let header = self.header(recorder, number)?;
        let own_file = self.draft.has_created(number) && is_file(header);
        Ok(own_file || may_want(self.client, header, Want::Write))
    }

    /// Whether the client may take a name of the node out of the directory. Reads both headers, also
    /// where the one tells enough.
    fn may_remove(
        &self,
        recorder: &mut Recorder<'_, 'e, 's, A>,
        dir: u32,
        number: u32,
    ) -> Result<bool, AllocError>
        ensures { LooksAtHeaders recorder.old recorder.new result dir number (λ allowed before. may_remove_in self.now before dir number ≡ allowed) }
    {
        let directory = self.header(recorder, dir)?;
        let node = self.header(recorder, number)?;
        Ok(may_be_removed(self.client, directory, node))
    }

    fn is_leased(
        &self,
        recorder: &mut Recorder<'_, 'e, 's, A>,
        number: u32,
    ) -> Result<bool, AllocError>
        ensures { AnswersLook recorder.old recorder.new result (LeaseOn number ∷ []) (λ leased before. checks.is_leased (entry_context_in self.now before) number ≡ leased) }
    {
        if self.draft.has_created(number) {
            return Ok(true);
        }
        recorder.is_held(number)
    }

    fn has_no_names(
        &self,
        recorder: &mut Recorder<'_, 'e, 's, A>,
        dir: u32,
    ) -> Result<bool, AllocError>
        ensures { AnswersLook recorder.old recorder.new result (CountOf dir ∷ []) (λ empty before. int_eq ((sight_in self.now before).count dir) (pos 0) ≡ empty) }
    {
        let count = recorder.count(dir)?;
        let shift = self.draft.shift(dir);
        Ok(is_zero(count, shift))
    }

    /// The directory's parent now, or none.
    fn parent(
        &self,
        recorder: &mut Recorder<'_, 'e, 's, A>,
        number: u32,
    ) -> Result<Option<u32>, AllocError>
        requires { StopsAtMoved self.now recorder.old }
        ensures looks { AnswersLook recorder.old recorder.new result (ParentOf number ∷ []) (λ parent before. parent_in self.now before number ≡ parent) }
        ensures stops { StopsAtMoved self.now recorder.new }
    {
        match self.draft.parent(number) {
            Some(parent) => Ok(parent),
            None => recorder.climb(number),
        }
    }

    /// Whether a climb from the directory along its parents meets the node. A way that an earlier climb
    /// went takes one step for each stretch of it, and else each level takes one.
    fn climb_meets(
        &self,
        recorder: &mut Recorder<'_, 'e, 's, A>,
        node: u32,
        dir: u32,
    ) -> Result<bool, AllocError>
        ensures { AnswersClimb self.now recorder.old recorder.new result node dir }
    {
        recorder.follow(self.draft.moved())?;
        let mut current = dir;
        let mut left = CLIMB_LIMIT as usize;
        while left > 0 {
            if current == node {
                return Ok(true);
            }
            let Some(way) = self.climb_on(recorder, node, current, left)? else {
                return Ok(false);
            };
            current = way.last;
            left -= way.steps;
        }
        Ok(current == node)
    }

    /// Where a climb goes on from a directory, in at most `left` steps: along a way that is kept, or to
    /// the parent. None where it has no parent.
    fn climb_on(
        &self,
        recorder: &mut Recorder<'_, 'e, 's, A>,
        node: u32,
        from: u32,
        left: usize,
    ) -> Result<Option<Way>, AllocError>
        requires other { from ≡ node → ⊥ }
        requires left { 0 < left }
        requires stops { StopsAtMoved self.now recorder.old }
        ensures looks { AnswersLook recorder.old recorder.new result (ParentOf from ∷ []) (LeadsOn self.now node from) }
        ensures steps { IfOk result (λ way. IfSome way (λ w. (0 < w.steps) × (w.steps ≤ left))) }
        ensures stops { StopsAtMoved self.now recorder.new }
    {
        let way = recorder.way(from, node);
        if way.steps > 0 && way.steps <= left {
            return Ok(Some(way));
        }
        let parent = self.parent(recorder, from)?;
        match parent {
            Some(up) => Ok(Some(Way { steps: 1, last: up })),
            None => Ok(None),
        }
    }

    fn is_number_free(
        &self,
        recorder: &mut Recorder<'_, 'e, 's, A>,
        number: u32,
    ) -> Result<bool, AllocError>
        ensures { LooksAtHeader recorder.old recorder.new result number (λ free before. checks.is_number_free (entry_context_in self.now before) number ≡ free) }
    {
        let before = recorder.header(number)?;
        let now = self.header_over(number, before);
        let created = self.draft.has_created(number);
        Ok(is_free(before, now, created))
    }

    /// The node's header now, where `before` is the one before the log.
    fn header_over(&self, number: u32, before: Option<Header>) -> Option<Header>
        ensures { (state : ClientSight) → state.sight.head number ≡ option_map header_of before → (sight_in self.now state).head number ≡ option_map header_of result }
    {
        match self.draft.header(number) {
            Some(header) => header,
            None => before,
        }
    }
}

fn may_want(client: &Client, header: Option<Header>, want: Want) -> bool
    ensures { result ≡ checks.is_some_and (option_map header_of header) (λ h. may_header client.now h (want_shown want)) }
{
    match header {
        Some(header) => may(client, header.uid, header.gid, header.mode, want),
        None => false,
    }
}

/// Whether the client is the node's owner, or privileged.
fn owns(client: &Client, header: Option<Header>) -> bool
    ensures { result ≡ checks.is_owner client.now (option_map header_of header) }
{
    match header {
        Some(header) => client.uid() == header.uid || client.is_privileged(),
        None => false,
    }
}

/// Whether the client may make this the group of a node that it owns (POSIX.1-2017, `chown`).
fn may_set_group(client: &Client, group: u32) -> bool
    ensures { result ≡ may_set_group client.now group }
{
    client.has_group(group) || client.is_privileged()
}

/// Whether the client may take a name of this node out of this directory (POSIX.1-2017, XBD 4.3): the
/// directory isn't sticky, or the client owns the one or the other, or is privileged.
fn may_be_removed(client: &Client, directory: Option<Header>, node: Option<Header>) -> bool
    ensures { result ≡ checks.may_remove client.now (option_map header_of directory) (option_map header_of node) }
{
    is_not_sticky(directory) || owns(client, directory) || owns(client, node)
}

/// Whether a node has this header, and its mode lacks `S_ISVTX`.
fn is_not_sticky(header: Option<Header>) -> bool
    ensures { result ≡ checks.is_some_and (option_map header_of header) (λ h. not (is_sticky h.mode)) }
{
    match header {
        Some(header) => !is_sticky(header.mode),
        None => false,
    }
}

fn is_sticky(mode: u16) -> bool
    ensures { result ≡ is_sticky mode }
{
    // That is `mode & STICKY != 0`, as the definitions say it: they count, and have no bits.
    mode / STICKY % 2 == 1
}

/// Whether a file with this header may have one more name.
fn has_room_for_link(header: Option<Header>) -> bool
    ensures { result ≡ checks.is_some_and (option_map header_of header) (λ h. nat_lt h.links link_limit) }
{
    match header {
        Some(header) => header.links < LINK_LIMIT,
        None => false,
    }
}

/// Whether a count plus its change is zero.
fn is_zero(count: u64, shift: i32) -> bool
    ensures { result ≡ int_eq (pos count +ℤ shift) (pos 0) }
{
    i128::from(count) + i128::from(shift) == 0
}

fn is_free(before: Option<Header>, now: Option<Header>, created: bool) -> bool
    ensures { result ≡ (is_none (option_map header_of before) && is_none (option_map header_of now) && not created) }
{
    before.is_none() && now.is_none() && !created
}

fn unless(holds: bool, reason: Reason) -> Option<Reason>
    ensures { option_map reason_of result ≡ checks.unless holds (reason_of reason) }
{
    if holds { None } else { Some(reason) }
}

fn is_directory(header: Option<Header>) -> bool
    ensures { result ≡ sight.is_directory (option_map header_of header) }
{
    match header {
        Some(header) => header.kind == Kind::Directory,
        None => false,
    }
}

fn kind_in(header: Option<Header>) -> Kind
    ensures { kind_of result ≡ sight.kind_shown (option_map header_of header) }
{
    match header {
        Some(header) => header.kind,
        None => Kind::File,
    }
}

fn is_file(header: Option<Header>) -> bool
    ensures { result ≡ sight.is_file (option_map header_of header) }
{
    match header {
        Some(header) => header.kind == Kind::File,
        None => false,
    }
}
