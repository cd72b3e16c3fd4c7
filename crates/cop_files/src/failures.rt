//! Why an order is not carried out, with what the system says of a file.

use cop_eds::EdsFault;
use cop_engine::Fault;
use cop_logbook::BookFault;
use cop_net::PlanFault;
use std::alloc::{AllocError, AllocFailed, Global};
use std::io;

/// Why an order is not carried out.
#[derive(Drop)]
pub struct Failure {
    pub fault: Fault,
    /// Of a file that is not read or written, or of what was found at a port: why, as a line.
    pub reason: Option<String>,
}

impl From<Fault> for Failure {
    fn from(fault: Fault) -> Failure {
        Failure {
            fault,
            reason: None,
        }
    }
}

impl From<AllocError> for Failure {
    fn from(_error: AllocError) -> Failure {
        Failure::from(Fault::Memory)
    }
}

impl<T: Drop> From<AllocFailed<T>> for Failure {
    fn from(_error: AllocFailed<T>) -> Failure {
        Failure::from(Fault::Memory)
    }
}

impl From<PlanFault> for Failure {
    fn from(fault: PlanFault) -> Failure {
        Failure::from(Fault::from(fault))
    }
}

impl From<BookFault> for Failure {
    fn from(fault: BookFault) -> Failure {
        Failure::from(match fault {
            BookFault::Refused { number, line } => Fault::Refused {
                number,
                place: line,
            },
            BookFault::Memory => Fault::Memory,
        })
    }
}

/// The failure of a text that is read as an EDS file and refused: by its rule, at its line.
pub fn eds_failure(alloc: Global, path: &str, fault: EdsFault) -> Failure {
    let EdsFault::Refused(refusal) = fault else {
        return Failure::from(Fault::Memory);
    };
    Failure {
        fault: Fault::Refused {
            number: refusal.rule.number(),
            place: refusal.line as u64,
        },
        reason: format!(in alloc; "it is in {path}\n").ok(),
    }
}

/// What could not be done with a file.
#[derive(Clone, Copy)]
pub enum Use {
    Read,
    Write,
    Remove,
}

/// What is said of a file before the system's word on it; `-` is a standard stream.
fn said_of(name: &str, wanted: Use) -> &'static str {
    match wanted {
        Use::Read if name == "-" => "standard input cannot be read",
        Use::Read => "it cannot be read",
        Use::Write if name == "-" => "standard output cannot be written",
        Use::Write => "it cannot be written",
        Use::Remove => "it is of an earlier plan, and cannot be removed",
    }
}

/// What is said behind the system's word.
fn limit_of(wanted: Use, error: &io::Error) -> &'static str {
    match wanted {
        Use::Read if error.kind() == io::ErrorKind::FileTooLarge => ", above 64 MiB",
        _ => "",
    }
}

fn named_failure(
    rt: &HostRuntime,
    name: &str,
    wanted: Use,
    error: &io::Error,
) -> Result<Failure, AllocError> {
    let (said, limit) = (said_of(name, wanted), limit_of(wanted, error));
    Ok(Failure {
        fault: Fault::File(String::from_str(rt.alloc(), name)?),
        reason: Some(format!(in rt.alloc(); "{said}: {error}{limit}\n")?),
    })
}

/// The failure of a file that is not read or written.
pub fn file_failure(rt: &HostRuntime, name: &str, wanted: Use, error: &io::Error) -> Failure {
    if error.kind() == io::ErrorKind::OutOfMemory {
        return Failure::from(Fault::Memory);
    }
    match named_failure(rt, name, wanted, error) {
        Ok(failure) => failure,
        Err(error) => Failure::from(error),
    }
}
