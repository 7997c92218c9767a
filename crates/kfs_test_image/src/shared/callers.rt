//! What the threads of the tests do.
ghost use Rattle.kfs_shared.specs.Passes.{IsPassOf};

use crate::shared::calls::{act, has_node, judged, land, view};
use crate::shared::files::File;
use crate::shared::side::Caller;
use kfs_desk::{Act, ActReply, Desk, Reply};
use kfs_shared::{Pass, Shared, SharedWant};
use std::alloc::Global;
use std::sync::Wait;

/// Creates up to four files, each after a view and a judgement of its own, and looks for each with a view.
#[derive(Drop)]
pub struct Creating {
    pub alloc: Global,
    pub files: [Option<File>; 4],
    /// The position of each Yes that needed no block, was judged once, and left the file to be found.
    pub positions: [Option<u32>; 4],
}

impl Creating {
    pub fn new(alloc: Global, files: [Option<File>; 4]) -> Creating {
        Creating {
            alloc,
            files,
            positions: [None; 4],
        }
    }
}

/// The reply to the creation of the file, judged against a view of now.
fn created<R: Wait>(
    rt: &R,
    alloc: Global,
    shared: &Shared<Desk<Global>, Global>,
    pass: &mut Pass<Desk<Global>>,
    file: File,
) -> Option<Reply>
    requires { IsPassOf shared.now pass.old }
    ensures { IsPassOf shared.now pass.new }
{
    let seen = view(rt, shared, pass).ok()?;
    let judged = judged(alloc, &seen, file.log, file.plan)?;
    land(rt, shared, pass, judged).ok()
}

/// Whether a view of now has the node.
fn finds<R: Wait>(
    rt: &R,
    shared: &Shared<Desk<Global>, Global>,
    pass: &mut Pass<Desk<Global>>,
    number: u32,
) -> bool
    requires { IsPassOf shared.now pass.old }
    ensures { IsPassOf shared.now pass.new }
{
    match view(rt, shared, pass) {
        Ok(view) => has_node(&view, number),
        Err(_) => false,
    }
}

/// The position of a Yes that needed no block and was judged once.
fn position_of(reply: Reply) -> Option<u32> {
    match reply {
        Reply::Yes {
            position,
            rejudged: false,
            need: 0,
        } => Some(position),
        _ => None,
    }
}

/// Creates the file, if there is one, and looks for it. The position of its row, where all is right.
fn created_and_found<R: Wait>(
    rt: &R,
    alloc: Global,
    shared: &Shared<Desk<Global>, Global>,
    pass: &mut Pass<Desk<Global>>,
    file: Option<File>,
) -> Option<u32>
    requires { IsPassOf shared.now pass.old }
    ensures { IsPassOf shared.now pass.new }
{
    let file = file?;
    let reply = created(rt, alloc, shared, pass, file)?;
    if finds(rt, shared, pass, file.number) {
        position_of(reply)
    } else {
        None
    }
}

impl Caller<Desk<Global>, Global> for Creating {
    fn call<R: Wait>(
        &mut self,
        rt: &R,
        shared: &Shared<Desk<Global>, Global>,
        pass: &mut Pass<Desk<Global>>,
    ) {
        let alloc = self.alloc;
        let [a, b, c, d] = self.files;
        let first = created_and_found(rt, alloc, shared, pass, a);
        let second = created_and_found(rt, alloc, shared, pass, b);
        let third = created_and_found(rt, alloc, shared, pass, c);
        let fourth = created_and_found(rt, alloc, shared, pass, d);
        self.positions = [first, second, third, fourth];
    }
}

/// Makes a call for the leases, or asks for a view where there is none to make.
#[derive(Drop)]
pub struct Asking {
    pub act: Option<Act<'static>>,
    /// The answer to the call.
    pub answer: Option<ActReply>,
    /// Why there was no answer or no view.
    pub why: Option<SharedWant>,
}

impl Asking {
    pub fn new(act: Option<Act<'static>>) -> Asking {
        Asking {
            act,
            answer: None,
            why: None,
        }
    }
}

/// The answer to the call, or none to a view.
fn asked<R: Wait>(
    rt: &R,
    shared: &Shared<Desk<Global>, Global>,
    pass: &mut Pass<Desk<Global>>,
    asked: Option<Act<'static>>,
) -> Result<Option<ActReply>, SharedWant>
    requires { IsPassOf shared.now pass.old }
    ensures { IsPassOf shared.now pass.new }
{
    match asked {
        Some(asked) => match act(rt, shared, pass, asked) {
            Ok(reply) => Ok(Some(reply)),
            Err(why) => Err(why),
        },
        None => match view(rt, shared, pass) {
            Ok(_) => Ok(None),
            Err(why) => Err(why),
        },
    }
}

impl Caller<Desk<Global>, Global> for Asking {
    fn call<R: Wait>(
        &mut self,
        rt: &R,
        shared: &Shared<Desk<Global>, Global>,
        pass: &mut Pass<Desk<Global>>,
    ) {
        match asked(rt, shared, pass, self.act) {
            Ok(answer) => self.answer = answer,
            Err(why) => self.why = Some(why),
        }
    }
}
