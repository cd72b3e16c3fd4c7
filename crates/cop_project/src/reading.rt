//! A project file, read.

ghost use Rattle.std.specs.Prelude.{◌≡◌, Some, None, Ok, Err, IfOk, IfErr};
ghost use Rattle.toml.specs.Errors.{IsMemory};
ghost use Rattle.toml.specs.View.{table_view};
ghost use Rattle.cop_project.specs.Project.{says, table_of, project_of};
ghost use Rattle.cop_project.specs.Refused.{IsRefusedBy};

use crate::keys::{Broken, project_in};
use crate::lines::{key_line, line_at};
use crate::project::{Project, ProjectFault};
use std::alloc::Global;
use toml::Table;
use toml::de::Error;

/// The fault of a text that is no TOML.
fn no_toml(text: &[u8], error: &Error) -> ProjectFault
    requires { ¬ IsMemory error.now → table_of text.now ≡ None }
    ensures { IsRefusedBy text.now result }
{
    match error.span() {
        Some(span) => ProjectFault::NoToml {
            line: line_at(text, span.start),
        },
        None => ProjectFault::Memory,
    }
}

/// The table that a text is.
fn table_of(alloc: Global, text: &[u8]) -> Result<Table, ProjectFault>
    ensures ok { IfOk result (λ t. table_of text.now ≡ Some (table_view t)) }
    ensures refused { IfErr result (IsRefusedBy text.now) }
{
    match toml::table_from_slice(alloc, text) {
        Ok(table) => Ok(table),
        Err(error) => Err(no_toml(text, &error)),
    }
}

/// The fault of a key that breaks a rule.
fn broken_fault(text: &[u8], broken: Broken<'_>) -> ProjectFault
    requires { project_of text.now ≡ Some (Err (broken.rule, broken.key.now)) }
    ensures { IsRefusedBy text.now result }
{
    ProjectFault::Broken {
        rule: broken.rule,
        line: key_line(text, broken.key.as_bytes()),
    }
}

/// What a project file says: exactly what its keys say, or the first rule that it breaks. Of a text that is no TOML the line is that at
/// which this shows; of a key that breaks a rule it is the first line that begins with the key, and 0 where none does.
pub fn read_project(alloc: Global, text: &[u8]) -> Result<Project, ProjectFault>
    ensures read { IfOk result (λ p. project_of text.now ≡ Some (Ok (says p))) }
    ensures refused { IfErr result (IsRefusedBy text.now) }
{
    let table = match table_of(alloc, text) {
        Ok(table) => table,
        Err(fault) => return Err(fault),
    };
    match project_in(alloc, &table) {
        Ok(Ok(project)) => Ok(project),
        Ok(Err(broken)) => Err(broken_fault(text, broken)),
        Err(_) => Err(ProjectFault::Memory),
    }
}
