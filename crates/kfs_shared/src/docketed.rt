//! What can be shared: an object that keeps a docket of its calls.
ghost use Rattle.std.specs.Prelude.{◌≡◌, List, length};

/// An object with a docket that only grows. Threads may share it as `Shared`, whatever else it is.
pub trait Docketed {
    /// How such an object is begun.
    type Opening;

    /// A row of its docket.
    type Row;

    /// How it was begun.
    ghost opening: { Self → Self.Opening };

    /// The rows of its docket.
    ghost rows: { Self → List Self.Row };

    /// The dockets that an object which was begun so may have.
    ghost legal: { Self.Opening → List Self.Row → Type 0 };

    /// It is in the state to which its docket leads.
    ghost stands: { Self → Type 0 };

    /// How many rows its docket has. Takes no memory.
    fn row_count(&self) -> u32
        ensures count { result ≡ length (rows self.now) }
        ensures legal { legal (opening self.now) (rows self.now) }
        ensures stands { stands self.now };
}
