//! Laws of streams of frames. No code here runs.
ghost use Rattle.std.specs.Prelude.{◌≡◌, ℕ, List};
ghost use Rattle.kfs_server.specs.Frames.Frame.{Frame, Splits};

/// A stream has one cut into frames, and the bytes behind them.
pub fn a_stream_has_one_cut()
    ensures { (stream : List ℕ) (frames others : List Frame) (rest other : List ℕ) → Splits stream frames rest → Splits stream others other → (frames ≡ others) × (rest ≡ other) }
{}
