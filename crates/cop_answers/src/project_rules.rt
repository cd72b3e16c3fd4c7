//! The rules of a project file.

/// What the rule of a number says of a project file; nothing for a number that has none.
pub(crate) fn project_rule_words(number: u8) -> &'static str {
    match number {
        150 => {
            "rule 150: a project file is no TOML\nusually: a name without quotes, or a key that stands twice\nright: nodes = \"nodes.csv\"\n"
        }
        151 => {
            "rule 151: a key of a project file is not known or has a value of another type, or nodes or pdos is not there\nusually: a key that is misspelled\nright: nodes and pdos, each the name of a file; rates, a list of numbers in kbit/s; choice, \"order\" or \"margin\"\n"
        }
        152 => {
            "rule 152: a value of a project file is none that its key takes\nusually: a rate that CiA 301 does not have\nright: rates = [250, 500]; choice = \"margin\"\n"
        }
        _ => "",
    }
}
