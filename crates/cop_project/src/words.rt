//! Which word of the command line names a project file.

ghost use Rattle.std.specs.Prelude.{◌≡◌, ℕ, ◌<◌, length, IfSome, IfNone, string_bytes, true, false};
ghost use Rattle.std.specs.List.{list_any};
ghost use Rattle.cop_project.specs.Words.{texts, word_at, takes_network, is_flag, takes_value, is_project, is_format, is_behind_format, names_project, is_said};

/// The word at a place.
#[tactic(auto, using(crate::proofs::Texts::text_at))]
pub(crate) fn word_at(words: &[String], place: usize) -> &str
    requires { place < length words.now }
    ensures { result.now ≡ word_at (texts words.now) place }
{
    words[place].as_str()
}

/// Whether a command takes the two tables of a network.
fn takes_network(command: &str) -> bool
    ensures { result ≡ takes_network command.now }
{
    let is_planned = command == "plan"
        || (command == "check" || (command == "report" || command == "export"));
    let is_machine = command == "boot" || command == "verify";
    let is_run = command == "run"
        || (command == "judge" || (command == "watch" || command == "room"));
    is_planned || (is_machine || is_run)
}

/// Whether a word that begins with `--` stands alone.
fn is_flag(word: &str) -> bool
    ensures { result ≡ is_flag word.now }
{
    let is_told = word == "--explain"
        || (word == "--json" || (word == "--strict" || word == "--margin"));
    let is_boot = word == "--take-over"
        || (word == "--no-identity"
            || (word == "--no-start" || (word == "--store" || word == "--restore")));
    is_told || (is_boot || (word == "--delta" || (word == "--help" || word == "--version")))
}

/// Whether the value of a word is the next one.
fn takes_value(word: &str) -> bool
    ensures { result ≡ takes_value word.now }
{
    let bytes = word.as_bytes();
    bytes.starts_with(b"--") && (!bytes.contains(&b'=') && !is_flag(word))
}

/// Whether a word is the name of a project file.
fn is_project(word: &str) -> bool
    ensures { result ≡ is_project word.now }
{
    let bytes = word.as_bytes();
    bytes.ends_with(b".toml") && !bytes.starts_with(b"-")
}

/// Whether a word is one of those that a plan is exported as.
fn is_format(word: &str) -> bool
    ensures { result ≡ is_format word.now }
{
    word == "dbc" || word == "cdcf"
}

/// Whether some word is a format.
fn has_format(words: &[String]) -> bool
    ensures { result ≡ list_any (λ word. is_format (string_bytes word)) words.now }
{
    words.iter().any(|word| is_format(word.as_str()))
}

/// Whether the tables of a network may follow these words, the program's name and the command being the first.
#[tactic(auto, using(crate::proofs::Texts::any_format))]
fn is_behind_format(words: &[String]) -> bool
    requires { 1 < length words.now }
    ensures { result ≡ is_behind_format (texts words.now) }
{
    word_at(words, 1) != "export" || has_format(words)
}

/// Whether the word at a place names a project file.
#[tactic(auto, using(crate::proofs::Texts::texts_take))]
fn names_project(words: &[String], place: usize) -> bool
    requires { place < length words.now }
    ensures { result ≡ names_project (texts words.now) place }
{
    place >= 2
        && (takes_network(word_at(words, 1))
            && (is_project(word_at(words, place))
                && (!takes_value(word_at(words, place - 1)) && is_behind_format(&words[..place]))))
}

/// The place of the word that names a project file: the first one behind a command that takes the tables of a network, and behind the
/// format of an export, that ends in `.toml`, does not begin with `-` and is no value of an option.
pub fn project_word(words: &[String]) -> Option<usize>
    ensures bound { IfSome result (λ i. i < length words.now) }
    ensures found { IfSome result (λ i. names_project (texts words.now) i ≡ true) }
    ensures first { IfSome result (λ i. (k : ℕ) → k < i → names_project (texts words.now) k ≡ false) }
    ensures none { IfNone result ((k : ℕ) → k < length words.now → names_project (texts words.now) k ≡ false) }
{
    for i in 0..words.len() {
        if names_project(words, i) {
            return Some(i);
        }
    }
    None
}

/// Whether a word says what a project file says, too: the table of settings, the rates or the choice.
fn is_said(word: &str) -> bool
    ensures { result ≡ is_said word.now }
{
    let bytes = word.as_bytes();
    let is_name = word == "--rates" || (word == "--margin" || word == "--setup");
    let has_value = bytes.starts_with(b"--rates=")
        || (bytes.starts_with(b"--margin=") || bytes.starts_with(b"--setup="));
    is_name || has_value
}

/// Whether some word says what a project file says, too.
pub fn is_said_twice(words: &[String]) -> bool
    ensures { result ≡ list_any (λ word. is_said (string_bytes word)) words.now }
{
    words.iter().any(|word| is_said(word.as_str()))
}
