//! Questions to devices over a port.

use crate::scripts::{Script, Turn};
use cop_identity::{Address, Answer, Demand, Exchange, Outcome, Question, ask_all, has_other};
use std::test::Fail;

const TYPE: Address = Address {
    index: 0x1000,
    sub: 0,
};

const PRODUCT: Address = Address {
    index: 0x1018,
    sub: 2,
};

const QUESTIONS: &[Question] = &[
    Question {
        node: 5,
        demand: Demand::Tell,
        at: TYPE,
        wanted: 0x000F_0191,
    },
    Question {
        node: 5,
        demand: Demand::Tell,
        at: PRODUCT,
        wanted: 0x191,
    },
    Question {
        node: 6,
        demand: Demand::Tell,
        at: TYPE,
        wanted: 0x000F_0191,
    },
    Question {
        node: 6,
        demand: Demand::Tell,
        at: PRODUCT,
        wanted: 0x191,
    },
    Question {
        node: 7,
        demand: Demand::Tell,
        at: TYPE,
        wanted: 0x191,
    },
];

/// An answer of another node, one about another object, and the right one; an abort; the size of a value that comes in segments, and
/// 1 s in which nothing comes; and a value of two bytes.
const TURNS: &[Turn] = &[
    (0, b"t58684300100091010F00\r"),
    (10, b"t58584318100291010F00\rz\rt58584300100091010F00\r"),
    (20, b"t585880181002"),
    (30, b"11000906\r"),
    (40, b"t58684100100004000000\r"),
    (4_000_039, b"t585843001000"),
    (4_000_040, b"t58784B0010009101FFFF\r"),
];

const OUTCOMES: [Outcome; 5] = [
    Outcome::Answered {
        answer: Answer::Wanted,
    },
    Outcome::Answered {
        answer: Answer::Aborted { code: 0x0609_0011 },
    },
    Outcome::Silent,
    Outcome::Unasked,
    Outcome::Answered {
        answer: Answer::Wanted,
    },
];

/// The requests: none to a node that was silent.
const REQUESTS: &[u8] =
    b"t60584000100000000000\rt60584018100200000000\rt60684000100000000000\rt60784000100000000000\r";

#[test]
fn asks(rt: HostRuntime) -> Result<(), Fail> {
    let mut port = Script::new(rt.alloc(), TURNS);
    let Some(exchanges) = ask_all(rt.alloc(), QUESTIONS, &mut port)? else {
        return Err(Fail::new("the port failed"));
    };
    assert!(rt; exchanges.len() == OUTCOMES.len());
    for (exchange, wanted) in exchanges.iter().zip(&OUTCOMES) {
        assert!(rt; exchange.outcome == *wanted);
    }
    assert!(rt; port.written.as_slice() == REQUESTS);
    assert!(rt; !has_other(&exchanges), "an abort and silence are no proof");
    Ok(())
}

/// One byte differs.
const OTHER: &[Turn] = &[(0, b"t58584300100091010E00\r")];

#[test]
fn finds_another_device(rt: HostRuntime) -> Result<(), Fail> {
    let mut port = Script::new(rt.alloc(), OTHER);
    let Some(exchanges) = ask_all(rt.alloc(), &QUESTIONS[..1], &mut port)? else {
        return Err(Fail::new("the port failed"));
    };
    assert!(rt; has_other(&exchanges), "the device is another one");
    Ok(())
}
