//! What a desk is begun with: an image and clients.
ghost use Rattle.std.specs.Prelude.{◌≡◌, ◌≤◌, IfErr, IfOk, IsErrOf, None, OnOk};
ghost use Rattle.kfs_program_text.specs.Command as commands;
ghost use Rattle.kfs_program.specs.Engine.Session.{AnswersLoad, Before, IsReplied, fresh};
ghost use Rattle.kfs_program_text.specs.Views.{opening_of};
ghost use Rattle.kfs_program.specs.Engine.Views.{IsOpened, IsWithoutImage, start_of};
ghost use Rattle.kfs_types.specs.Room.{spare_of};

use crate::images::load;
use crate::report::{begin_line, client_line};
use kfs_desk::Desk;
use kfs_desk::history::answers::BeginFault;
use kfs_image::{Image, TierSizes};
use kfs_mode::{Client, ClientFault};
use kfs_program_text::parts::text;
use kfs_program_text::{OpeningCommand, Refusal};
use std::alloc::Allocator;
use std::mem;
use std::thread::Threads;

/// The image, if there is one yet, and the clients in the order of their lines.
#[derive(Drop)]
pub struct Opening<A: Allocator> {
    alloc: A,
    image: Option<Image<A>>,
    clients: Vec<Client, A>,
}

impl<A: Allocator + Copy> Opening<A> {
    /// No image and no client.
    pub fn new(alloc: A) -> Opening<A>
        ensures { Before (start_of result) ≡ fresh }
    {
        Opening {
            alloc,
            image: None,
            clients: Vec::new(alloc),
        }
    }

    /// Answers a command that comes before the desk is begun. If the command begins the desk, the desk
    /// is the answer. Condition: the reply has room for 128 bytes.
    pub fn answer(
        &mut self,
        command: OpeningCommand,
        reply: &mut Vec<u8, A>,
    ) -> Result<Option<Desk<A>>, Refusal>
        requires { 128 ≤ spare_of reply.old }
        ensures ok { IfOk result (λ begun. IsOpened self.old (opening_of command) reply.old.items reply.new.items begun self.new) }
        ensures bad { IsErrOf result Refusal.BadLine → IsWithoutImage self.old (opening_of command) self.new }
        ensures memory { IsErrOf result Refusal.OutOfMemory → start_of self.new ≡ start_of self.old }
    {
        match command {
            OpeningCommand::New(sizes) => self.renew(sizes, reply)?,
            OpeningCommand::Client(client) => self.admit(client, reply)?,
            OpeningCommand::Begin(limit) => return self.begin(limit, reply),
        }
        Ok(None)
    }

    /// Makes a fresh image, in place of an image that was there.
    fn renew(&mut self, sizes: TierSizes, reply: &mut Vec<u8, A>) -> Result<(), Refusal>
        requires { 128 ≤ spare_of reply.old }
        ensures ok { OnOk result (IsOpened self.old (commands.New sizes) reply.old.items reply.new.items None self.new) }
        ensures err { IfErr result (λ why. (why ≡ Refusal.OutOfMemory) × (start_of self.new ≡ start_of self.old)) }
    {
        self.image = Some(Image::fresh(self.alloc, sizes)?);
        text(reply, b"ok\n");
        Ok(())
    }

    /// Takes in the image that the bytes decode to, in place of an image that was there. Where they make
    /// none, nothing changes, and the reply says why.
    #[tactic(auto, using(crate::proofs::EngineLemmas::Held::image_answered))]
    pub fn load(
        &mut self,
        rt: &(impl Threads + Sync),
        bytes: &[u8],
        reply: &mut Vec<u8, A>,
    ) -> Result<(), Refusal>
        ensures ok { OnOk result (IsReplied (AnswersLoad (start_of self.old) bytes.now) reply.old.items reply.new.items (Before (start_of self.new))) }
        ensures err { IfErr result (λ why. (why ≡ Refusal.OutOfMemory) × (start_of self.new ≡ start_of self.old)) }
    {
        let Some(image) = load(rt, self.alloc, bytes, reply)? else {
            return Ok(());
        };
        self.image = Some(image);
        Ok(())
    }

    /// Adds a client, unless it is refused.
    fn admit(
        &mut self,
        client: Result<Client, ClientFault>,
        reply: &mut Vec<u8, A>,
    ) -> Result<(), Refusal>
        requires { 128 ≤ spare_of reply.old }
        ensures ok { OnOk result (IsOpened self.old (commands.Row client) reply.old.items reply.new.items None self.new) }
        ensures err { IfErr result (λ why. (why ≡ Refusal.OutOfMemory) × (start_of self.new ≡ start_of self.old)) }
    {
        match client {
            Ok(client) => {
                self.clients.push(client)?;
                text(reply, b"ok\n");
            }
            Err(fault) => client_line(reply, fault)?,
        }
        Ok(())
    }

    /// Begins the desk. If its clients are refused, the image stays and the clients are forgotten. If
    /// memory runs out, both stay.
    fn begin(&mut self, limit: u32, reply: &mut Vec<u8, A>) -> Result<Option<Desk<A>>, Refusal>
        requires { 128 ≤ spare_of reply.old }
        ensures ok { IfOk result (λ begun. IsOpened self.old (commands.Begin limit) reply.old.items reply.new.items begun self.new) }
        ensures bad { IsErrOf result Refusal.BadLine → IsWithoutImage self.old (commands.Begin limit) self.new }
        ensures memory { IsErrOf result Refusal.OutOfMemory → start_of self.new ≡ start_of self.old }
    {
        let image = self.image.take().ok_or(Refusal::BadLine)?;
        let clients = mem::replace(&mut self.clients, Vec::new(self.alloc));
        let back = match Desk::begin(self.alloc, image, clients, limit) {
            Ok(desk) => {
                text(reply, b"ok\n");
                return Ok(Some(desk));
            }
            Err(back) => back,
        };
        self.image = Some(back.image);
        if back.why == BeginFault::OutOfMemory {
            self.clients = back.clients;
            return Err(Refusal::OutOfMemory);
        }
        begin_line(reply, back.why)?;
        Ok(None)
    }
}
