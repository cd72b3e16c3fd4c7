//! The files and standard streams of an order, and why it is not carried out.
#![tactic(auto)]

mod earlier;
mod failures;
mod files;
mod folders;
mod forms;
mod inputs;

pub use earlier::{NodeFiles, remove_earlier};
pub use failures::{Failure, Use, eds_failure, file_failure};
pub use files::{Folder, print, print_document, tell, write_file};
pub use folders::eds_names;
pub use forms::Form;
pub use inputs::{
    is_regular, open_file, read_eds_files, read_file, read_input, read_network, read_opened,
    read_tables,
};
