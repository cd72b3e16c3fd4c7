//! A value of an object of one node at a port is read or written.

ghost use Rattle.std.specs.Prelude.{◌≡◌, IfOk, IfErr, Some};
ghost use Rattle.cop_serial.specs.Boots.{FailsBy};
ghost use Rattle.cop_serial.specs.Transferring.{status_of, refused_as};

use crate::serial::{Serial, limit_of, open_serial};
use crate::telling::{answer, line_failure, reason_refusal, say, tell_adapter, tell_heard};
use cop_dict::DataType;
use cop_documents::{Meaning, Transfer, TransferEnd, transfer_document};
use cop_eds::{Eds, parse};
use cop_engine::Fault;
use cop_files::{Failure, Form, Use, eds_failure, file_failure, read_file};
use cop_logbook::abort_words;
use cop_orders::TransferOrder;
use cop_transfer::{Address, ClientFault, End, ReadValue, Transferred, read, write};
use cop_value::{bytes_of, number_in};
use std::alloc::{AllocError, Global};
use std::str;

/// What is to be read or written.
#[derive(Clone, Copy)]
struct Target<'a> {
    order: TransferOrder<'a>,
    at: Address,
    /// The type of its values, if it is known.
    data_type: Option<DataType>,
}

/// A word that asks for what cannot be.
fn misused(rt: &HostRuntime, words: &str) -> Failure {
    Failure {
        fault: Fault::Usage,
        reason: String::from_str(rt.alloc(), words).ok(),
    }
}

/// The number of hexadecimal digits, which may stand behind `0x` or before `h`.
fn hexadecimal(word: &str) -> Option<u64> {
    let word = word.as_bytes();
    let digits = word.strip_prefix(b"0x").unwrap_or(word);
    let digits = digits.strip_suffix(b"h").unwrap_or(digits);
    cop_eds::number_in(16, digits)
}

/// The object that an order names.
fn address_of(order: TransferOrder<'_>) -> Option<Address> {
    let index = u16::try_from(hexadecimal(order.index)?).ok()?;
    let sub = u8::try_from(hexadecimal(order.sub)?).ok()?;
    Some(Address { index, sub })
}

/// The type of an object that an EDS text describes.
fn described_type(eds: &Eds<'_>, at: Address) -> Option<DataType> {
    let object = eds.objects().iter().find(|object| object.index == u64::from(at.index)
        && object.sub == u64::from(at.sub))?;
    Some(DataType::numbered(object.data_type))
}

/// The type of an object by an EDS file.
fn type_in(rt: &HostRuntime, path: &str, at: Address) -> Result<DataType, Failure> {
    let alloc = rt.alloc();
    let text = read_file(rt, path)?;
    let eds = match parse(alloc, &text) {
        Ok(eds) => eds,
        Err(fault) => return Err(eds_failure(alloc, path, fault)),
    };
    let (index, sub) = (at.index, at.sub);
    match described_type(&eds, at) {
        Some(data_type) => Ok(data_type),
        None => Err(misused(
            rt,
            &format!(in alloc; "{path} describes no object {index:04X} {sub:02X}\n")?,
        )),
    }
}

/// What an order is about.
fn target_of<'a>(rt: &HostRuntime, order: TransferOrder<'a>) -> Result<Target<'a>, Failure> {
    let Some(at) = address_of(order) else {
        return Err(misused(
            rt,
            "INDEX and SUB are hexadecimal digits, as 1017 and 0: at most FFFF and FF\n",
        ));
    };
    let data_type = match order.eds {
        Some(path) => Some(type_in(rt, path, at)?),
        None => order.data_type,
    };
    Ok(Target {
        order,
        at,
        data_type,
    })
}

/// Bytes in hexadecimal digits, in the order in which they come over the bus.
fn push_bytes(text: &mut String, bytes: &[u8]) -> Result<(), AllocError> {
    for byte in bytes {
        write!(text, "{byte:02X}")?;
    }
    Ok(())
}

/// What the bytes of a value mean in its type: a number, the text of a VISIBLE_STRING that can be printed, or else the bytes alone.
fn meaning_of<'a>(data_type: Option<DataType>, bytes: &'a [u8]) -> Meaning<'a> {
    let Some(data_type) = data_type else {
        return Meaning::Bytes;
    };
    if let Some(number) = number_in(data_type, bytes) {
        return Meaning::Number(number);
    }
    if data_type == DataType::VisibleString
        && bytes.iter().all(|byte| matches!(*byte, 0x20..=0x7E))
    {
        return Meaning::Text(str::from_utf8(bytes).unwrap_or(""));
    }
    Meaning::Bytes
}

/// A value: of a type with numbers in decimal digits, of a VISIBLE_STRING its text, and of all others its bytes.
fn push_value(
    text: &mut String,
    data_type: Option<DataType>,
    bytes: &[u8],
) -> Result<(), AllocError> {
    match meaning_of(data_type, bytes) {
        Meaning::Number(number) => write!(text, "{number}"),
        Meaning::Text(shown) => text.push_str(shown),
        Meaning::Bytes => push_bytes(text, bytes),
    }
}

/// The line of a value that a node has, or has taken.
fn value_line(alloc: Global, target: Target<'_>, bytes: &[u8]) -> Result<String, AllocError> {
    let (node, index, sub) = (target.order.node, target.at.index, target.at.sub);
    let done = if target.order.value.is_some() {
        "took"
    } else {
        "has"
    };
    let mut text = format!(in alloc; "node {node} {done} {index:04X} {sub:02X} ")?;
    push_value(&mut text, target.data_type, bytes)?;
    text.push_str("\n")?;
    Ok(text)
}

/// The line of a transfer.
fn end_line(
    alloc: Global,
    target: Target<'_>,
    end: End,
    bytes: &[u8],
) -> Result<String, AllocError> {
    let (node, index, sub) = (target.order.node, target.at.index, target.at.sub);
    match end {
        End::Done => value_line(alloc, target, bytes),
        End::Refused { code } | End::GivenUp { code } => {
            format!(in alloc; "node {node} aborted {index:04X} {sub:02X} {code:08X}\n")
        }
        End::Silent => format!(in alloc; "node {node} silent\n"),
    }
}

/// How a transfer ended, with what its bytes are and mean where they came.
fn told_end<'a>(end: End, digits: &'a str, meaning: Meaning<'a>) -> TransferEnd<'a> {
    match end {
        End::Done => TransferEnd::Done { digits, meaning },
        End::Refused { code } => TransferEnd::Refused { code },
        End::GivenUp { code } => TransferEnd::GivenUp { code },
        End::Silent => TransferEnd::Silent,
    }
}

/// The word of the subcommand that an order is of.
fn command_of(order: TransferOrder<'_>) -> &'static str {
    if order.value.is_some() {
        "write"
    } else {
        "read"
    }
}

/// The document of a transfer.
fn end_document(
    alloc: Global,
    target: Target<'_>,
    end: End,
    bytes: &[u8],
) -> Result<String, AllocError> {
    let mut digits = String::new(alloc);
    push_bytes(&mut digits, bytes)?;
    let transfer = Transfer {
        command: command_of(target.order),
        node: target.order.node,
        index: target.at.index,
        sub: target.at.sub,
        end: told_end(end, digits.as_str(), meaning_of(target.data_type, bytes)),
    };
    let document = transfer_document(alloc, transfer)?;
    format!(in alloc; "{document}\n")
}

/// Gives the answer in a form.
fn answer_in(
    rt: &HostRuntime,
    target: Target<'_>,
    form: Form,
    end: End,
    bytes: &[u8],
) -> Result<(), Failure> {
    let alloc = rt.alloc();
    let text = if form == Form::Document {
        end_document(alloc, target, end, bytes)?
    } else {
        end_line(alloc, target, end, bytes)?
    };
    answer(rt, target.order.port, text.as_bytes())
}

/// What is said of it in words.
fn end_words(alloc: Global, end: End) -> Result<String, AllocError> {
    match end {
        End::Refused { code } => {
            let words = abort_words(code);
            format!(in alloc; "canplan: the node says: {words}\n")
        }
        End::GivenUp { code } => {
            let words = abort_words(code);
            format!(in alloc;
                "canplan: the node's answer was none to the request, and canplan aborted the transfer: {words}\n"
            )
        }
        End::Silent => String::from_str(
            alloc,
            "canplan: the node did not answer: a read is given up after 1 s, and a write after 10 s\n",
        ),
        End::Done => Ok(String::new(alloc)),
    }
}

/// Tells what came of a transfer, and gives its status: 3 if the value was not read or written.
fn tell_transferred(
    rt: &HostRuntime,
    target: Target<'_>,
    form: Form,
    came: Transferred,
    bytes: &[u8],
    port: &Serial<'_>,
) -> Result<u8, Failure>
    ensures ends { IfOk result (λ status. status_of came ≡ Some status) }
    ensures fails { IfErr result (λ failure. FailsBy (refused_as came) failure.fault) }
{
    let order = target.order;
    match came {
        Transferred::Ended { end: End::Done } => {
            answer_in(rt, target, form, End::Done, bytes)?;
            Ok(0)
        }
        Transferred::Ended { end } => {
            answer_in(rt, target, form, end, bytes)?;
            if form == Form::Told {
                say(rt, end_words(rt.alloc(), end)?.as_bytes());
            }
            Ok(3)
        }
        Transferred::Left { reason } => Err(reason_refusal(rt, reason, order.rate)),
        Transferred::Failed => Err(line_failure(rt, order.port, port)),
    }
}

/// Opens the port of an order, and says what is done there.
fn open_port<'a>(
    rt: &'a HostRuntime,
    order: TransferOrder<'_>,
    form: Form,
) -> Result<Serial<'a>, Failure> {
    let port = match open_serial(rt, order.port, limit_of(order.limit)) {
        Ok(port) => port,
        Err(error) => return Err(file_failure(rt, order.port, Use::Read, &error)),
    };
    if form == Form::Told {
        let words: &[u8] = match order.value {
            Some(_) => b"canplan: listening for 2 s at most, then the value is written\n",
            None => {
                b"canplan: listening for 2 s at most, then the value is read; nothing is written\n"
            }
        };
        say(rt, words);
    }
    Ok(port)
}

/// What is said of a number that no node has.
const NO_NODE: &str = "NODE is a number from 1 to 127\n";

/// Reads a value of a node, if there can be such a node.
fn read_from(
    rt: &HostRuntime,
    order: TransferOrder<'_>,
    at: Address,
    port: &mut Serial<'_>,
) -> Result<ReadValue, Failure> {
    let node = order.node;
    if node == 0 || node > 127 {
        return Err(misused(rt, NO_NODE));
    }
    Ok(read(rt.alloc(), order.rate, node, at, port)?)
}

/// Writes bytes to an object of a node, if there can be such a node.
fn write_to(
    rt: &HostRuntime,
    order: TransferOrder<'_>,
    at: Address,
    bytes: &[u8],
    port: &mut Serial<'_>,
) -> Result<Transferred, Failure> {
    let node = order.node;
    if node == 0 || node > 127 {
        return Err(misused(rt, NO_NODE));
    }
    match write(rt.alloc(), order.rate, node, at, bytes, port) {
        Ok(came) => Ok(came),
        Err(ClientFault::TooLong) => Err(misused(rt, "VALUE has more than 65,535 bytes\n")),
        Err(ClientFault::Busy | ClientFault::Memory) => Err(Failure::from(AllocError)),
    }
}

/// Reads the value of an object.
fn read_value(rt: &HostRuntime, target: Target<'_>, form: Form) -> Result<u8, Failure> {
    let order = target.order;
    let mut port = open_port(rt, order, form)?;
    let value = read_from(rt, order, target.at, &mut port)?;
    port.close_if_over();
    tell_adapter(rt, &port);
    tell_heard(rt, &port);
    tell_transferred(rt, target, form, value.came, &value.bytes, &port)
}

/// The bytes of the value that is to be written.
fn wanted_bytes(rt: &HostRuntime, target: Target<'_>, text: &str) -> Result<Vec<u8>, Failure> {
    let Some(data_type) = target.data_type else {
        return Err(misused(rt, "the type of the value is not known\n"));
    };
    match bytes_of(rt.alloc(), data_type, target.order.node, text.as_bytes())? {
        Some(bytes) => Ok(bytes),
        None => Err(misused(
            rt,
            "VALUE is no value of its type: a number is written as an EDS file writes it, bytes are hexadecimal digits\n",
        )),
    }
}

/// Writes a value to an object.
fn write_value(
    rt: &HostRuntime,
    target: Target<'_>,
    form: Form,
    text: &str,
) -> Result<u8, Failure> {
    let order = target.order;
    let bytes = wanted_bytes(rt, target, text)?;
    let mut port = open_port(rt, order, form)?;
    let came = write_to(rt, order, target.at, &bytes, &mut port)?;
    port.close_if_over();
    tell_adapter(rt, &port);
    tell_heard(rt, &port);
    tell_transferred(rt, target, form, came, &bytes, &port)
}

/// Reads or writes a value of an object of one node at a port.
#[inline(never)]
pub fn carry_transfer(
    rt: &HostRuntime,
    order: TransferOrder<'_>,
    form: Form,
) -> Result<u8, Failure> {
    let target = target_of(rt, order)?;
    match order.value {
        Some(text) => write_value(rt, target, form, text),
        None => read_value(rt, target, form),
    }
}
