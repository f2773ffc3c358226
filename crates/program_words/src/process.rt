//! The process: its arguments, and its end.

ghost use Rattle.std.specs.Prelude.{◌≡◌, drop};
ghost use Rattle.std.specs.Process.{exit_status};
ghost use Rattle.sync_types.specs.Codes.{code_of};
ghost use Rattle.program_words.specs.Errors.{ended_code};

use crate::{ProgramError, Reason, put_error};
use edge_io::StdSink;
use std::alloc::AllocError;
use std::env;
use std::io::{self, ErrorKind};
use std::process::ExitCode;
use sync_types::Status;

/// All arguments of the process, the program's own name first. If one is no text there are none.
pub fn arguments(rt: &HostRuntime) -> Result<Vec<String>, AllocError> {
    let mut all = Vec::new(rt.alloc());
    match env::args(rt) {
        Ok(arguments) => {
            for argument in arguments {
                all.push(argument)?;
            }
        }
        Err(error) if error.kind() == ErrorKind::OutOfMemory => return Err(AllocError),
        Err(_) => {}
    }
    Ok(all)
}

/// The words after the program's own name.
pub fn words(arguments: &[String]) -> &[String]
    ensures { result.now ≡ drop 1 arguments.now }
{
    match arguments {
        [_, words @ ..] => words,
        [] => arguments,
    }
}

/// The exit code of a program that ended so.
pub fn exit_code(status: Status) -> ExitCode
    ensures { exit_status result ≡ code_of status }
{
    ExitCode::from(status.code())
}

/// Ends a program: writes the line of an error to standard error, and answers the exit code.
pub fn end<T: Drop, R: Reason>(rt: &HostRuntime, ended: Result<T, ProgramError<R>>) -> ExitCode
    ensures { exit_status result ≡ ended_code R.reason_code ended }
{
    match ended {
        Ok(_) => exit_code(Status::Ok),
        Err(error) => {
            let stderr = rt.stderr();
            // If standard error is closed, the code alone says it.
            let _ = put_error(&mut StdSink::new(io::writer(&stderr)), &error);
            error.exit_code()
        }
    }
}
