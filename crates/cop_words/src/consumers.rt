//! What is usually wrong with the RPDO of a consumer, and what is right.

use cop_net::ReceiveFault;
use cop_rules::explained;
use std::alloc::{AllocError, Global};

fn cause_of(fault: ReceiveFault) -> &'static str {
    match fault {
        ReceiveFault::NoDevice => "a node number mistyped, or a device row that was left out",
        ReceiveFault::Mapping(_) => {
            "a consumer that counts its RPDOs from another number, or an RPDO that is mapped at start-up alone"
        }
        ReceiveFault::Taken => "one RPDO for two senders, or a row that was copied",
        ReceiveFault::OtherLayout => {
            "a consumer that maps other lengths, or the number of another RPDO"
        }
    }
}

fn right_of(fault: ReceiveFault) -> &'static str {
    match fault {
        ReceiveFault::NoDevice => "a device row of the consumer's node in the table of nodes",
        ReceiveFault::Mapping(_) => "an RPDO whose 1600h and on the EDS file describes",
        ReceiveFault::Taken => "another RPDO of the consumer, such as 11.2: an RPDO takes one PDO",
        ReceiveFault::OtherLayout => "an RPDO with the same lengths in the same order",
    }
}

/// Adds the lines on an RPDO that does not take what a TPDO sends.
pub(crate) fn push_consumer_rule(
    words: &mut Vec<u8>,
    alloc: Global,
    fault: ReceiveFault,
) -> Result<(), AllocError> {
    let Some(found) = explained(48) else {
        return Ok(());
    };
    let rule = found.rule;
    let (cause, right) = (cause_of(fault), right_of(fault));
    let lines = format!(in alloc; "rule 48: {rule}\nusually: {cause}\nright: {right}\n")?;
    words.extend_from_slice(lines.as_bytes())
}
