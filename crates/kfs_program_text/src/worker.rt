//! The numbers of workers. Each worker may hold one verdict. The prover wants the type in a file of its own:
//! its ghost field imports all that the file names, and the definitions of commands name the type.
ghost use Rattle.std.specs.Prelude.{◌≡◌, ◌≤◌};

/// The greatest number of a worker.
pub const LAST_WORKER: u64 = 7;

/// The number of a worker, 0 to 7.
#[derive(Clone, Copy)]
pub struct Worker {
    number: u8,
    ghost within: { number ≤ 7 },
}

impl Worker {
    /// The worker with this number.
    pub(crate) fn of(number: u8) -> Worker
        requires { number ≤ 7 }
        ensures { result.number ≡ number }
    {
        Worker { number }
    }

    /// The number, 0 to 7.
    pub fn number(self) -> usize
        ensures value { result ≡ self.number }
        ensures within { result ≤ 7 }
    {
        usize::from(self.number)
    }
}
