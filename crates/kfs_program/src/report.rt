//! The line of each answer. Each function appends its line, with its end, to `out`.
//!
//! `Err` where memory runs out; `out` is as it was then. Where `out` has 128 bytes of spare room, no
//! memory is taken.
ghost use Rattle.std.specs.Prelude.{◌≡◌, ◌+◌, ◌≤◌, ◌++◌, length, codes};
ghost use Rattle.kfs_program.specs.Report.{AddsLine, reply_text, fault_text, head_text, act_text, done_text, node_text, header_text, kind_text, counts_text, client_text, begin_text, finding_text, image_fault_text};
ghost use Rattle.kfs_types.specs.Room.{Appends, spare_of};

mod names;

use kfs_desk::history::answers::{ActReply, BeginFault, Done, Reply};
use kfs_image::ImageFault;
use kfs_image_nodes::{Header, Kind};
use kfs_mode::ClientFault;
use kfs_plan::Fault;
use kfs_program_text::parts::{field, flag, number, octal, text};
use kfs_shape::Finding;
use names::{act_fault, begin_fault, client_fault, image_fault, judgement_fault};
use std::alloc::{AllocError, Allocator};

/// The most bytes of a line that these functions append.
pub const LONGEST_LINE: usize = 128;

/// The line of the answer to a submission: `P yes rejudged=R need=N`, `P no rejudged=R FAULT` or
/// `P noroom rejudged=R need=N free=F`.
pub fn reply_line<A: Allocator>(out: &mut Vec<u8, A>, reply: &Reply) -> Result<(), AllocError>
    ensures { AddsLine out.old out.new (reply_text reply.now) result }
{
    out.try_reserve(LONGEST_LINE)?;
    push_reply(out, reply);
    text(out, b"\n");
    Ok(())
}

fn push_reply<A: Allocator>(out: &mut Vec<u8, A>, reply: &Reply)
    requires { 127 ≤ spare_of out.old }
    ensures { Appends out.old out.new 127 (reply_text reply.now) }
{
    match reply {
        Reply::Yes {
            position,
            rejudged,
            need,
        } => {
            push_head(out, *position, b" yes rejudged=", *rejudged);
            text(out, b" need=");
            number(out, *need);
        }
        Reply::No {
            position,
            rejudged,
            fault,
        } => {
            push_head(out, *position, b" no rejudged=", *rejudged);
            text(out, b" ");
            judgement_fault(out, *fault);
        }
        Reply::NoRoom {
            position,
            rejudged,
            need,
            free,
        } => {
            push_head(out, *position, b" noroom rejudged=", *rejudged);
            text(out, b" need=");
            number(out, *need);
            text(out, b" free=");
            number(out, u64::from(*free));
        }
    }
}

fn push_head<A: Allocator>(out: &mut Vec<u8, A>, position: u32, word: &[u8], rejudged: bool)
    requires { length word.now + 21 ≤ spare_of out.old }
    ensures { Appends out.old out.new (length word.now + 21) (head_text position word.now rejudged) }
{
    number(out, u64::from(position));
    text(out, word);
    flag(out, rejudged);
}

/// The line of why a submission is refused: `client unknown`, `log NAME`, `client wrong`, `plan NAME` or
/// `entry K NAME`.
pub fn fault_line<A: Allocator>(out: &mut Vec<u8, A>, why: &Fault) -> Result<(), AllocError>
    ensures { AddsLine out.old out.new (fault_text why.now) result }
{
    out.try_reserve(LONGEST_LINE)?;
    judgement_fault(out, *why);
    text(out, b"\n");
    Ok(())
}

/// The line of the answer to a call that is no submission: `P leased N`, `P dropped N`, `P ticked M`,
/// `P moved C` or `P refused NAME`.
pub fn act_line<A: Allocator>(out: &mut Vec<u8, A>, reply: &ActReply) -> Result<(), AllocError>
    ensures { AddsLine out.old out.new (act_text reply.now) result }
{
    out.try_reserve(LONGEST_LINE)?;
    number(out, u64::from(reply.position));
    match reply.answer {
        Ok(done) => push_done(out, done),
        Err(fault) => {
            text(out, b" refused ");
            act_fault(out, fault);
        }
    }
    text(out, b"\n");
    Ok(())
}

fn push_done<A: Allocator>(out: &mut Vec<u8, A>, done: Done)
    requires { 29 ≤ spare_of out.old }
    ensures { Appends out.old out.new 29 (done_text done) }
{
    match done {
        Done::Leased(node) => {
            text(out, b" leased ");
            number(out, u64::from(node));
        }
        Done::Dropped(node) => {
            text(out, b" dropped ");
            number(out, u64::from(node));
        }
        Done::Ticked(moment) => {
            text(out, b" ticked ");
            number(out, moment);
        }
        Done::Moved(count) => {
            text(out, b" moved ");
            number(out, u64::from(count));
        }
    }
}

/// The line of a node: `node N KIND MODE UID GID LINKS SIZE`.
pub fn node_line<A: Allocator>(
    out: &mut Vec<u8, A>,
    node: u32,
    header: &Header,
) -> Result<(), AllocError>
    ensures { AddsLine out.old out.new (node_text node header.now) result }
{
    out.try_reserve(LONGEST_LINE)?;
    text(out, b"node ");
    number(out, u64::from(node));
    push_header(out, header);
    text(out, b"\n");
    Ok(())
}

fn push_header<A: Allocator>(out: &mut Vec<u8, A>, header: &Header)
    requires { 94 ≤ spare_of out.old }
    ensures { Appends out.old out.new 94 (header_text header.now) }
{
    text(out, kind_word(header.kind));
    octal(out, header.mode);
    push_counts(out, header);
}

fn kind_word(kind: Kind) -> &'static [u8]
    ensures word { result.now ≡ kind_text kind }
    ensures short { length result.now ≤ 6 }
{
    match kind {
        Kind::File => b" file ",
        Kind::Directory => b" dir ",
    }
}

fn push_counts<A: Allocator>(out: &mut Vec<u8, A>, header: &Header)
    requires { 84 ≤ spare_of out.old }
    ensures { Appends out.old out.new 84 (counts_text header.now) }
{
    field(out, u64::from(header.uid));
    field(out, u64::from(header.gid));
    field(out, u64::from(header.links));
    field(out, header.size);
}

/// The line of a broken rule of an image: `finding RULE NUMBER`.
pub fn finding_line<A: Allocator>(out: &mut Vec<u8, A>, finding: &Finding) -> Result<(), AllocError>
    ensures { AddsLine out.old out.new (finding_text finding.now.rule finding.now.number) result }
{
    out.try_reserve(LONGEST_LINE)?;
    text(out, b"finding");
    field(out, u64::from(finding.rule));
    field(out, u64::from(finding.number));
    text(out, b"\n");
    Ok(())
}

/// The line of bytes that are no image: `image NAME`.
pub fn image_line<A: Allocator>(out: &mut Vec<u8, A>, fault: ImageFault) -> Result<(), AllocError>
    ensures { AddsLine out.old out.new (codes "image " ++ image_fault_text fault) result }
{
    out.try_reserve(LONGEST_LINE)?;
    text(out, b"image ");
    image_fault(out, fault);
    text(out, b"\n");
    Ok(())
}

/// The line of a client that is refused: `client NAME`.
pub fn client_line<A: Allocator>(out: &mut Vec<u8, A>, fault: ClientFault) -> Result<(), AllocError>
    ensures { AddsLine out.old out.new (codes "client " ++ client_text fault) result }
{
    out.try_reserve(LONGEST_LINE)?;
    text(out, b"client ");
    client_fault(out, fault);
    text(out, b"\n");
    Ok(())
}

/// The line of a desk that wasn't begun: `begin NAME`.
pub fn begin_line<A: Allocator>(out: &mut Vec<u8, A>, fault: BeginFault) -> Result<(), AllocError>
    ensures { AddsLine out.old out.new (codes "begin " ++ begin_text fault) result }
{
    out.try_reserve(LONGEST_LINE)?;
    text(out, b"begin ");
    begin_fault(out, fault);
    text(out, b"\n");
    Ok(())
}
