//! Changes that are made together or not at all.
ghost use Rattle.std.specs.Prelude.{OnOk, OnErr};

use std::alloc::AllocError;

/// A change that is prepared as a whole and then made, so that several can be made together: all of them,
/// or none.
///
/// Changes are nested: `make` prepares its own change, calls `make` of the next, and then writes its own
/// values. On the way in all memory is taken, and nothing that anyone sees changes. On the way out values
/// are written, for which the memory is there, so that nothing can fail any more. Where memory runs out
/// on the way in, no value is written.
pub trait Change {
    /// What must hold before a call.
    ghost can_make: { Self → Type 0 };

    /// What holds of the states before and after a call that returned `Ok`.
    ghost made: { Self → Self → Type 0 };

    /// What holds of the states before and after a call that returned `Err`.
    ghost kept: { Self → Self → Type 0 };

    /// Makes the change. `Err` only where memory runs out, before the first value is written.
    fn make(&mut self) -> Result<(), AllocError>
        requires { can_make self.old }
        ensures made { OnOk result (made self.old self.new) }
        ensures kept { OnErr result (kept self.old self.new) };

    /// A change that was never tried counts as one that returned `Err`.
    ghost not_tried: { (x : Self) → kept x x };
}

/// No change: the end of a chain of changes.
#[derive(Drop)]
pub struct Nothing;

impl Change for Nothing {
    ghost use Rattle.std.specs.Prelude.{⊤};

    ghost can_make = { λ before. ⊤ };

    ghost made = { λ before after. ⊤ };

    ghost kept = { λ before after. ⊤ };

    ghost not_tried = { λ before. tt };

    fn make(&mut self) -> Result<(), AllocError> {
        Ok(())
    }
}
