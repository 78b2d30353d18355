//! The command line: `mcs4 new FILE` and `mcs4 open FILE`, parsed by clap.
ghost use Rattle.std.specs.Prelude.{◌≡◌, ◌≢◌, Some, None, true, map, IfOk, IfErr, IsErrOf};
ghost use Rattle.clap.specs.Words.{kind_of, subcommand_of, subcommand_rows_of};
ghost use Rattle.mcs_host.specs.CommandLine.{choice_in, accepts_arguments, arguments_of_choice, program};

use crate::arguments::{ArgumentsFault, Choice, FileName};
use clap::error::ErrorKind;
use clap::{Arg, ArgMatches, Command, Error};
use std::alloc::Global;
use std::convert::AsStr;

impl Choice {
    /// Returns the name of the file to create or open.
    pub fn file(&self) -> &str
        ensures { result.now ≡ (arguments_of_choice self.now).1 }
    {
        match self {
            Choice::New(file) | Choice::Open(file) => file.as_str(),
        }
    }
}

// Parses the arguments with clap. Fails only if they are invalid by clap's specification, or if
// memory runs out.
fn parse_arguments<'a, S: AsStr>(alloc: Global, arguments: &'a [S]) -> Result<ArgMatches<'a>, Error>
    ensures ok { IfOk result (λ m. subcommand_rows_of m
        ≡ subcommand_of program (map S.text arguments.entry.now)) }
    ensures err { IfErr result (λ e. accepts_arguments (map S.text arguments.entry.now) ≡ true
        → kind_of e ≡ ErrorKind.OutOfMemory) }
{
    let new_file = Arg::new(alloc, "FILE").required(true);
    let new_command = Command::new(alloc, "new").arg(new_file)?;
    let open_file = Arg::new(alloc, "FILE").required(true);
    let open_command = Command::new(alloc, "open").arg(open_file)?;
    let app = Command::new(alloc, "mcs4");
    let app_with_new = app.subcommand(new_command)?;
    let app_with_both = app_with_new.subcommand(open_command)?;
    app_with_both.try_get_matches_from(arguments)
}

/// Returns the task that the arguments select. The first argument is the program's name.
///
/// On success, the subcommand and the FILE are those that clap's specification gives for the
/// arguments. Fails with `Usage` only if, by that specification, the arguments are invalid or
/// select neither `new FILE` nor `open FILE`. A request for help is an example of such arguments.
/// Fails with `NoMemory` if memory runs out.
pub fn choice<S: AsStr>(alloc: Global, arguments: &[S]) -> Result<Choice, ArgumentsFault>
    ensures selected { IfOk result (λ c.
        choice_in (map S.text arguments.entry.now) ≡ Some (arguments_of_choice c)) }
    ensures usage { IsErrOf result ArgumentsFault.Usage
        → (accepts_arguments (map S.text arguments.entry.now) ≡ true
        → choice_in (map S.text arguments.entry.now) ≡ None) }
{
    let matches = match parse_arguments(alloc, arguments) {
        Ok(matches) => matches,
        Err(error) => return Err(fault_of(&error)),
    };
    let Some((name, inner)) = matches.subcommand() else {
        return Err(ArgumentsFault::Usage);
    };
    let Some(file) = inner.get_str("FILE") else {
        return Err(ArgumentsFault::Usage);
    };
    let file = FileName::new(String::from_str(alloc, file)?);
    match name {
        "new" => Ok(Choice::New(file)),
        "open" => Ok(Choice::Open(file)),
        _ => Err(ArgumentsFault::Usage),
    }
}

fn fault_of(error: &Error) -> ArgumentsFault
    ensures { result ≡ ArgumentsFault.Usage → kind_of error.now ≢ ErrorKind.OutOfMemory }
{
    if error.kind() == ErrorKind::OutOfMemory {
        ArgumentsFault::NoMemory
    } else {
        ArgumentsFault::Usage
    }
}
