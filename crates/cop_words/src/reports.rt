//! What is said of streams that do not pass the test.

use cop_rta::Verdict;
use std::alloc::{AllocError, Global};

/// What is said of a stream that does not pass; nothing of one that does.
fn words_on(alloc: Global, id: u16, verdict: Verdict) -> Result<String, AllocError> {
    match verdict {
        Verdict::Pass { .. } => Ok(String::new(alloc)),
        Verdict::Late { q, response } => format!(in alloc;
            "{id:03X}h: its instance {q} can end {response} ticks of 250 ns after its event, which is past its deadline\n"
        ),
        Verdict::Long => format!(in alloc;
            "{id:03X}h: it and the frames above it can keep the bus busy for more than 10 s; they ask for more than this rate carries\n"
        ),
    }
}

/// What is said of the streams that do not pass, by their identifiers, a line each.
pub fn late_words(alloc: Global, verdicts: &[(u16, Verdict)]) -> Result<Vec<u8>, AllocError> {
    let mut words = Vec::new(alloc);
    for (id, verdict) in verdicts {
        words.extend_from_slice(words_on(alloc, *id, *verdict)?.as_bytes())?;
    }
    Ok(words)
}
