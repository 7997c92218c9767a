//! A script with its words, the exit status and the replies that are expected.
ghost use Rattle.std.specs.Prelude.{◌≡◌, ◌≤◌, length, OnOk};
ghost use Rattle.kfs_rows.specs.Scripts.Differences.{line_behind};

use crate::scripts::fault::ScriptFault;
use crate::scripts::script::Script;
use std::alloc::Global;
use std::collections::BTreeSet;
use std::io::ErrorKind;
use std::rt::Files;
use std::{fs, io};

/// The exit status that is expected where no file says another.
const DONE: u64 = 0;

/// Scripts of at most this many bytes are also run with each allocation failing in turn, and with
/// each read and each write failing in turn.
const SMALL: usize = 3_000;

/// A script and what is expected of it.
#[derive(Drop)]
pub struct Case {
    script: Vec<u8>,
    words: Option<Vec<u8>>,
    replies: Vec<u8>,
    status: u8,
    padding: usize,
    is_broken: bool,
    growths: Option<u64>,
    room: Option<u64>,
}

/// The names, without their endings, of the scripts and of the expected replies in a folder.
pub fn script_names<R: Files + AllocGlobal + Clone + Drop>(
    rt: &R,
    folder: &str,
) -> io::Result<BTreeSet<String>> {
    let mut names = BTreeSet::new(rt.alloc());
    for entry in fs::read_dir(rt, folder)? {
        let entry = entry?;
        let file = entry.file_name();
        if let Some(name) = file.strip_suffix(".kfs").or(file.strip_suffix(".out")) {
            names.insert(String::from_str(rt.alloc(), name)?)?;
        }
    }
    Ok(names)
}

impl Case {
    /// Reads the files with this name. Each script has two:
    /// - `.kfs`, the script;
    /// - `.out`, the replies that are expected.
    ///
    /// And it may have:
    /// - `.words`, the words after the program's name, one a line (else `run`);
    /// - `.status`, the exit status (else 0);
    /// - `.padding`, how many bytes `x` follow the script's last byte (else 0);
    /// - `.broken`: reading fails after the last byte;
    /// - `.growths`, the least number of allocations that the script asks for;
    /// - `.room`, a number of bytes of memory that is enough for it.
    pub fn read<R: Files + AllocGlobal>(rt: &R, name: &str) -> Result<Case, ScriptFault> {
        let script = needed_file(rt, name, ".kfs")?;
        let replies = needed_file(rt, name, ".out")?;
        let words = optional_file(rt, name, ".words")?;
        let status = optional_number(rt, name, ".status")?.unwrap_or(DONE);
        let Ok(status) = u8::try_from(status) else {
            return Err(ScriptFault::Unreadable(".status"));
        };
        let padding = optional_number(rt, name, ".padding")?.unwrap_or(0);
        let is_broken = optional_file(rt, name, ".broken")?.is_some();
        Ok(Case {
            script,
            words,
            replies,
            status,
            padding: usize::try_from(padding).unwrap_or(usize::MAX),
            is_broken,
            growths: optional_number(rt, name, ".growths")?,
            room: optional_number(rt, name, ".room")?,
        })
    }

    /// The program's name and its words.
    pub fn words(&self, alloc: Global) -> Result<Vec<&str>, ScriptFault> {
        let mut words = vec![in alloc; "kfs"]?;
        let Some(text) = &self.words else {
            words.push("run")?;
            return Ok(words);
        };
        let Ok(text) = str::from_utf8(text) else {
            return Err(ScriptFault::Unreadable(".words"));
        };
        for word in text.lines() {
            words.push(word)?;
        }
        Ok(words)
    }

    /// The script, as the program reads it.
    pub fn script(&self) -> Script<'_> {
        Script {
            bytes: self.script.as_slice(),
            padding: self.padding,
            is_broken: self.is_broken,
        }
    }

    /// The bytes of the script.
    pub fn lines(&self) -> &[u8]
        ensures { result.now ≡ self.now.script.items }
    {
        &self.script
    }

    /// The replies that are expected.
    pub fn replies(&self) -> &[u8]
        ensures { result.now ≡ self.now.replies.items }
    {
        &self.replies
    }

    /// Whether the script is small, and all of it is in its file.
    pub fn is_small(&self) -> bool {
        !self.is_broken && self.padding == 0 && self.script.len() <= SMALL
    }

    /// Whether the script is a small session of `run` that is read to its end.
    pub fn is_small_session(&self) -> bool {
        self.is_small() && self.words.is_none()
    }

    /// The least number of allocations that the script asks for, if each is to be refused in
    /// turn. That is so where `.growths` gives a number, and for each small session.
    pub fn growths(&self) -> Option<u64> {
        let is_small = self.is_small_session();
        self.growths.or(is_small.then_some(0))
    }

    /// The bytes of memory that are enough for the script, if that is to be tested.
    pub fn room(&self) -> Option<u64>
        ensures { result ≡ self.now.room }
    {
        self.room
    }

    /// Compares what was written, and then the exit status, with what is expected.
    pub fn compare(&self, ended: u8, written: &[u8]) -> Result<(), ScriptFault>
        ensures replies { OnOk result (written.now ≡ self.now.replies.items) }
        ensures status { OnOk result (ended ≡ self.now.status) }
    {
        compare_replies(written, &self.replies)?;
        if ended == self.status {
            Ok(())
        } else {
            Err(ScriptFault::Status {
                ended,
                status: self.status,
            })
        }
    }
}

/// The bytes of a file that each script must have.
fn needed_file<R: Files + AllocGlobal>(
    rt: &R,
    name: &str,
    ending: &'static str,
) -> Result<Vec<u8>, ScriptFault> {
    optional_file(rt, name, ending)?.ok_or(ScriptFault::Missing(ending))
}

/// The bytes of a file that a script may have.
fn optional_file<R: Files + AllocGlobal>(
    rt: &R,
    name: &str,
    ending: &'static str,
) -> Result<Option<Vec<u8>>, ScriptFault> {
    let path = format!(in rt.alloc(); "{name}{ending}")?;
    match fs::read(rt, path.as_str()) {
        Ok(bytes) => Ok(Some(bytes)),
        Err(error) if error.kind() == ErrorKind::NotFound => Ok(None),
        Err(_) => Err(ScriptFault::Unreadable(ending)),
    }
}

/// The number in a file that a script may have.
fn optional_number<R: Files + AllocGlobal>(
    rt: &R,
    name: &str,
    ending: &'static str,
) -> Result<Option<u64>, ScriptFault> {
    let Some(text) = optional_file(rt, name, ending)? else {
        return Ok(None);
    };
    let number = str::from_utf8(&text).ok();
    let number = number.and_then(|text| text.trim_ascii_end().parse::<u64>().ok());
    match number {
        Some(number) => Ok(Some(number)),
        None => Err(ScriptFault::Unreadable(ending)),
    }
}

/// The first byte at which what was written differs from what is expected.
fn compare_replies(written: &[u8], expected: &[u8]) -> Result<(), ScriptFault>
    ensures { OnOk result (written.now ≡ expected.now) }
{
    if written == expected {
        return Ok(());
    }
    let same = alike(written, expected);
    Err(ScriptFault::Differs {
        line: line_behind(expected, same),
        byte: same.saturating_add(1),
    })
}

/// How many bytes at the front are the same in both.
fn alike(written: &[u8], expected: &[u8]) -> usize {
    let pairs = written.iter().zip(expected.iter());
    pairs.take_while(|(left, right)| left == right).count()
}

/// The line, from 1, of the byte with this index.
fn line_behind(expected: &[u8], same: usize) -> usize
    ensures { same ≤ length expected.now → result ≡ line_behind expected.now same }
{
    let before = expected.get(..same).unwrap_or(expected);
    let ends = before.iter().filter(|byte| **byte == b'\n').count();
    ends.saturating_add(1)
}
