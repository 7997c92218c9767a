//! The clients of a desk, from the lines of a file.
ghost use Rattle.std.specs.Prelude.{◌≡◌, Ok, Some, IfOk};
ghost use Rattle.kfs_program_text.specs.Command.{Row, Setup, asked_by};
ghost use Rattle.kfs_program_text.specs.Views.{opening_of};

use crate::fault::ProgramFault;
use kfs_mode::{Client, ClientFault};
use kfs_program_text::{Command, OpeningCommand, Refusal, first_line};
use std::alloc::Global;

/// The clients of a text, one a line, each as the command `client` of `kfs` (docs/FORMATS.md). The last line may lack its end.
pub fn clients_in(alloc: Global, text: &[u8]) -> Result<Vec<Client>, ProgramFault> {
    let mut clients = Vec::new(alloc);
    let mut rest = text;
    // No text has more lines than bytes.
    for index in 0..text.len() {
        if rest.is_empty() {
            break;
        }
        let (line, behind) = next_line(rest);
        clients.push(client_in(alloc, line, index)?)?;
        rest = behind;
    }
    Ok(clients)
}

/// The first line without its end, and what stands behind it.
fn next_line(bytes: &[u8]) -> (&[u8], &[u8]) {
    match first_line(bytes) {
        Some((line, behind)) => (line, behind),
        None => (bytes, &[]),
    }
}

/// The client of a line, which has this index.
fn client_in(alloc: Global, line: &[u8], index: usize) -> Result<Client, ProgramFault>
    ensures { IfOk result (λ client. asked_by line.now ≡ Some (Setup (Row (Ok client)))) }
{
    match client_row(alloc, line) {
        Ok(Ok(client)) => Ok(client),
        Ok(Err(_)) => Err(ProgramFault::BadLine(index)),
        Err(Refusal::BadLine) => Err(ProgramFault::BadLine(index)),
        Err(Refusal::OutOfMemory) => Err(ProgramFault::OutOfMemory),
    }
}

/// The client of a line, or why it is refused. Another line is bad.
fn client_row(alloc: Global, line: &[u8]) -> Result<Result<Client, ClientFault>, Refusal>
    ensures { IfOk result (λ row. asked_by line.now ≡ Some (Setup (Row row))) }
{
    let mut room = Vec::new(alloc);
    match Command::read(alloc, &mut room, line)? {
        Command::Opening(command) => row_of(command),
        Command::Image(_) => Err(Refusal::BadLine),
        Command::Desk(_) => Err(Refusal::BadLine),
    }
}

/// The client that the command has, or why it is refused. Another command is a bad line.
fn row_of(command: OpeningCommand) -> Result<Result<Client, ClientFault>, Refusal>
    ensures { IfOk result (λ row. opening_of command ≡ Row row) }
{
    match command {
        OpeningCommand::Client(row) => Ok(row),
        OpeningCommand::New(_) => Err(Refusal::BadLine),
        OpeningCommand::Begin(_) => Err(Refusal::BadLine),
    }
}
