//! The section of a page on what is worth a look before one relies on the plan.

use crate::units::Escaped;
use std::alloc::AllocError;

/// A line of warnings without the word before it.
fn sentence(line: &str) -> &str {
    line.strip_prefix("warning: ").unwrap_or(line)
}

/// Adds the lines of warnings, where there are any.
pub(crate) fn push_warnings(page: &mut String, warnings: &str) -> Result<(), AllocError> {
    if warnings.is_empty() {
        return Ok(());
    }
    page.push_str("<section id=\"warnings\">\n<h2>Before you rely on this</h2>\n<ul>\n")?;
    for line in warnings.lines() {
        let words = Escaped(sentence(line));
        write!(page, "<li>{words}</li>\n")?;
    }
    page.push_str("</ul>\n</section>\n")
}
