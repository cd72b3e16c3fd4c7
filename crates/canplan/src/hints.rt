//! What is seen of a file that cannot be read or written, and of a log that has no known form.

use crate::faults::port_of;
use cop_orders::{InitOrder, Order, PlanOrder, Shown, TidyOrder, WatchOrder};
use std::alloc::AllocError;
use std::fs::{self, File};
use std::io::{self, Read};

/// What comes before the digits of the name of a CAN interface.
const INTERFACES: [&str; 3] = ["can", "vcan", "slcan"];

/// Whether a name is that of a SocketCAN interface.
fn is_interface(name: &str) -> bool {
    INTERFACES.iter().any(|begin| match name.strip_prefix(*begin) {
        Some(rest) => !rest.is_empty() && rest.bytes().all(|byte| byte.is_ascii_digit()),
        None => false,
    })
}

/// The file or the folder that an order writes.
fn out_of<'a>(order: Order<'a>) -> Option<&'a str> {
    match order {
        Order::Plan(PlanOrder { out, .. }) => Some(out),
        Order::Report { out, .. } | Order::Export { out, .. } => Some(out),
        Order::Init(InitOrder { out, .. }) => Some(out),
        Order::Tidy(TidyOrder { out, .. }) => out,
        Order::Watch { csv, .. } => csv,
        Order::Listen(order) => order.csv,
        _ => None,
    }
}

/// Whether a file is the one that an order writes, or lies in the folder that it writes to.
fn is_out(order: Order<'_>, name: &str) -> bool {
    let Some(out) = out_of(order) else {
        return false;
    };
    match name.strip_prefix(out) {
        Some(rest) => rest.is_empty() || out.ends_with('/') || rest.starts_with('/'),
        None => false,
    }
}

/// The folder of a file, and the file's own name.
fn parts_of(path: &str) -> (&str, &str) {
    match path.rsplit_once('/') {
        Some(("", name)) => ("/", name),
        Some((folder, name)) => (folder, name),
        None => (".", path),
    }
}

/// Whether a path is that of a folder.
fn is_folder(rt: &HostRuntime, path: &str) -> bool {
    matches!(fs::metadata(rt, path), Ok(found) if found.is_dir())
}

/// The name in a folder that differs from a name only in capital and small letters.
fn spelled_alike(rt: &HostRuntime, folder: &str, name: &str) -> io::Result<Option<String>> {
    for entry in fs::read_dir(rt, folder)? {
        let entry = entry?;
        let other = entry.file_name();
        if other != name && other.eq_ignore_ascii_case(name) {
            return Ok(Some(String::from_str(rt.alloc(), other)?));
        }
    }
    Ok(None)
}

/// The whole path of a folder, or as it is named where that is not found.
fn whole_path(rt: &HostRuntime, folder: &str) -> Result<String, AllocError> {
    match fs::canonicalize(rt, folder) {
        Ok(path) => Ok(path.into_string()),
        Err(_) => String::from_str(rt.alloc(), folder),
    }
}

/// What is seen of a file that is written.
fn written_words(rt: &HostRuntime, name: &str) -> Result<String, AllocError> {
    let (folder, _) = parts_of(name);
    if is_folder(rt, name) {
        return format!(in rt.alloc(); "{name} is a folder: name a file\n");
    }
    match fs::metadata(rt, folder) {
        Ok(found) if found.is_dir() => Ok(String::new(rt.alloc())),
        Ok(_) => format!(in rt.alloc(); "{folder} is no folder\n"),
        Err(_) => {
            let make = if folder.contains('/') {
                "mkdir -p"
            } else {
                "mkdir"
            };
            format!(in rt.alloc(); "there is no folder {folder}: {make} {folder}\n")
        }
    }
}

/// What is seen of a file that is read and is not there.
fn absent_words(rt: &HostRuntime, name: &str) -> Result<String, AllocError> {
    let (folder, own) = parts_of(name);
    if !is_folder(rt, folder) {
        return format!(in rt.alloc(); "there is no folder {folder}\n");
    }
    let place = whole_path(rt, folder)?;
    match spelled_alike(rt, folder, own) {
        Ok(Some(other)) => {
            format!(in rt.alloc();
                "{other} is there: names are compared with case\nit is wanted as {own} in {place}\n"
            )
        }
        _ => format!(in rt.alloc(); "it is wanted as {own} in {place}\n"),
    }
}

/// What is seen of a file that cannot be read or written.
pub fn file_hint(rt: &HostRuntime, order: Order<'_>, name: &str) -> Result<String, AllocError> {
    if port_of(order) == Some(name) && is_interface(name) {
        return format!(in rt.alloc();
            "{name} is a SocketCAN interface, and canplan speaks slcan on a serial device, such as /dev/ttyACM0\n"
        );
    }
    if is_out(order, name) {
        return written_words(rt, name);
    }
    match fs::exists(rt, name) {
        Ok(false) if name != "-" => absent_words(rt, name),
        _ => Ok(String::new(rt.alloc())),
    }
}

/// The log that an order watches.
fn log_of<'a>(order: Order<'a>) -> Option<&'a str> {
    let watched: Option<WatchOrder<'a>> = match order {
        Order::Watch { log, .. } => Some(log),
        Order::Report {
            shown: Shown { log, .. },
            ..
        } => log,
        _ => None,
    };
    watched.map(|watched| watched.log)
}

/// The first bytes of a file, as far as it has them.
fn first_bytes(rt: &HostRuntime, name: &str) -> io::Result<[u8; 4]> {
    let mut first = [0; 4];
    let mut file = File::open(rt, name)?;
    file.read_exact(&mut first)?;
    Ok(first)
}

/// What is said of a log in bytes, by the first of them.
fn bytes_words(first: &[u8]) -> &'static str {
    if first.starts_with(b"LOGG") {
        "this is a log of Vector in bytes (BLF): save it as .asc, or python3 -m can.logconvert IN.blf OUT.log\n"
    } else if first.starts_with(b"MDF ") {
        "this is a log in bytes (MDF): python3 -m can.logconvert IN.mf4 OUT.log makes one that is read\n"
    } else {
        ""
    }
}

/// What is seen of a log that is refused, by its first bytes.
pub fn log_hint(rt: &HostRuntime, order: Order<'_>) -> &'static str {
    let Some(log) = log_of(order) else {
        return "";
    };
    let Ok(first) = first_bytes(rt, log) else {
        return "";
    };
    bytes_words(&first)
}
