//! The two versions of the encoding of a session.
ghost use Rattle.std.specs.Prelude.{◌≡◌, List, ℕ, Some, nat_lt};
ghost use Rattle.std.specs.List.{list_any};
ghost use Rattle.mcs_model.specs.BenchState.{BenchState};
ghost use Rattle.mcs_version1.specs.Boards.{fits_version_1};
ghost use Rattle.mcs_version1.specs.Command.{is_command_of_version_1, is_place_1};
ghost use Rattle.mcs_codec.specs.Codec.{EncodesStateBy, version_has_command, version_number, version_of};

use mcs_model::board::Board;
use mcs_model::command::{Command, Place};

/// The maximum number of chains on a board of version 1.
const VERSION_1_CHAINS: usize = 2;

/// The maximum number of chips in a chain of version 1.
const VERSION_1_CHAIN_CHIPS: u8 = 4;

/// Returns true if a board has a chain with too many chips for version 1.
fn has_long_chain(board: &Board) -> bool
    ensures { result
        ≡ list_any (λ chain. nat_lt VERSION_1_CHAIN_CHIPS chain.chips) board.now.chains.items }
{
    board
        .parts()
        .chains
        .iter()
        .any(|chain| chain.chips > VERSION_1_CHAIN_CHIPS)
}

/// Returns true if version 1 allows the board: at most two chains, each with at most four chips.
pub(crate) fn fits_version_1(board: &Board) -> bool
    ensures { result ≡ fits_version_1 board.now }
{
    if board.chain_count() > VERSION_1_CHAINS {
        return false;
    }
    !has_long_chain(board)
}

/// Returns true if version 1 has this kind of [`Place`]. The match lists every kind, so a new kind
/// must be added here before the code compiles.
fn is_place_1(place: &Place) -> bool
    ensures { result ≡ is_place_1 place.now }
{
    match place {
        Place::Acc(_)
        | Place::Cy(_)
        | Place::Pc(_)
        | Place::Register(_, _)
        | Place::Dcl(_)
        | Place::Rom(_, _)
        | Place::Ram(_, _, _)
        | Place::Status(_, _, _, _) => true,
    }
}

/// Returns true if version 1 has this command. Version 1 has no watches, and its boards have fewer
/// and shorter chains.
pub fn is_command_of_version_1(command: &Command) -> bool
    ensures { result ≡ is_command_of_version_1 command.now }
{
    match command {
        Command::Wire(board) => fits_version_1(board),
        Command::Poke(place) => is_place_1(place),
        Command::Watch(_, _) | Command::Unwatch(_, _) => false,
        Command::Load(_)
        | Command::Press(_, _)
        | Command::Release(_, _)
        | Command::Run(_)
        | Command::Step
        | Command::Test(_)
        | Command::Reset
        | Command::Break(_)
        | Command::Unbreak(_) => true,
    }
}

/// A version of the encoding of a session.
#[derive(Clone, Copy, Debug, PartialEq, Eq)]
pub enum Version {
    /// The old version. States in it are read and converted, but never written.
    One,
    /// The current version, in which states are written.
    Two,
}

impl Version {
    /// Returns the number of the version, 1 or 2.
    pub fn number(self) -> u8
        ensures { result ≡ version_number self }
    {
        match self {
            Version::One => 1,
            Version::Two => 2,
        }
    }

    /// Returns true if the version has this command.
    pub fn has(self, command: &Command) -> bool
        ensures { result ≡ version_has_command self command.now }
    {
        match self {
            Version::One => is_command_of_version_1(command),
            Version::Two => true,
        }
    }
}

/// Proves that no bytes encode two different states, or states of both versions. If bytes encode a
/// state, their fifth byte determines its version. (Each state has at most one encoding in each
/// version, because the definition of the encoding is a function.)
pub fn one_state()
    ensures states { (bytes : List ℕ) (v w : Version) (s t : BenchState)
        → EncodesStateBy v bytes s → EncodesStateBy w bytes t → s ≡ t }
    ensures versions { (bytes : List ℕ) (v w : Version) (s t : BenchState)
        → EncodesStateBy v bytes s → EncodesStateBy w bytes t → v ≡ w }
    ensures versioned { (bytes : List ℕ) (version : Version) (s : BenchState)
        → EncodesStateBy version bytes s → version_of bytes ≡ Some version }
{}
