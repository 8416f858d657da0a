// Why a store was not written out whole.
ghost use Rattle.std.specs.Prelude.{◌≡◌};
ghost use Rattle.node.specs.Stops.{engine_stop};
ghost use Rattle.node.specs.declared.stop.Stop.TheVariants as stop;
ghost use Rattle.dumps.specs.declared.dump_error.DumpError.TheVariants.{Store, Write};

use engine::EngineError;
use node::Stop;
use std::alloc::AllocError;
use std::io;

/// Why a store was not written out whole. A beginning of its text may have been written.
#[derive(Clone, Copy, Debug, PartialEq, Eq)]
pub enum DumpError {
    /// The cause for which the store was not opened, or not read to its end.
    Store(Stop),
    /// The output takes no more.
    Write,
}

impl From<EngineError> for DumpError {
    ghost from_gives = { λ cause e. e ≡ Store (engine_stop cause) };

    fn from(cause: EngineError) -> DumpError {
        DumpError::Store(Stop::from(cause))
    }
}

impl From<AllocError> for DumpError {
    ghost from_gives = { λ _ e. e ≡ Store stop.Memory };

    fn from(_e: AllocError) -> DumpError {
        DumpError::Store(Stop::Memory)
    }
}

impl From<io::Error> for DumpError {
    ghost from_gives = { λ _ e. e ≡ Write };

    fn from(_e: io::Error) -> DumpError {
        DumpError::Write
    }
}
