//! The task that the command-line arguments select: a new or an existing session.
ghost use Rattle.std.specs.Prelude.{◌≡◌, ℕ, List, string_bytes};
ghost use Rattle.mcs_host.specs.declared.arguments.ArgumentsFault.TheVariants.{NoMemory};

use std::alloc::AllocError;
use std::marker::Model;
use thiserror::Error;

/// The name of a session file, as given in the arguments. Contracts see the bytes of the name.
#[derive(Drop)]
pub struct FileName {
    name: String,
}

impl Model for FileName {
    ghost Value = { List ℕ };

    ghost view = { λ f. string_bytes f.name };
}

impl FileName {
    pub(crate) fn new(name: String) -> FileName
        ensures { result ≡ string_bytes name }
    {
        FileName { name }
    }

    /// Returns the name as text, as it was given in the arguments.
    pub fn as_str(&self) -> &str
        ensures { result.now ≡ self.now }
    {
        self.name.as_str()
    }
}

/// The task that the arguments select: create a session or open an existing one.
#[derive(Drop)]
pub enum Choice {
    /// Create a new session in this file.
    New(FileName),
    /// Continue the session that this file holds.
    Open(FileName),
}

/// The reason why the arguments do not select a task.
#[derive(Clone, Copy, Debug, Error)]
pub enum ArgumentsFault {
    /// The program does not accept the arguments, and prints its usage.
    #[error("the arguments are none of the program's")]
    Usage,
    /// Memory ran out while the arguments were parsed.
    #[error("out of memory")]
    NoMemory,
}

impl From<AllocError> for ArgumentsFault {
    ghost from_gives = { λ _ e. e ≡ NoMemory };

    fn from(_: AllocError) -> Self {
        ArgumentsFault::NoMemory
    }
}
