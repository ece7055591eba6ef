//! The commands, and the tests of the grammar of the command line.
ghost use Rattle.std.specs.Prelude.{◌≡◌, ℕ, None, map, string_bytes, IfSome, ◌≤◌};
ghost use Rattle.std.specs.Option.{option_map};
ghost use Rattle.op_command.specs.Command.{Range, is_name, is_operand, is_source_name, makes_image, runs_image};
ghost use Rattle.op_command.specs.Line.{number_or};
ghost use Rattle.op_command.specs.Reading.{completes, is_command, number_in, verb_of, with_heap, with_option, with_stack, with_steps};

use op_link::Settings;

/// What is done with the operand.
#[derive(Clone, Copy)]
pub enum Verb {
    /// Compiles the program in the file and runs it.
    Exec,
    /// Compiles the program in the file and writes its image.
    Build,
    /// Checks the program in the file.
    Check,
    /// Compiles the program in the file and writes the listing of its image.
    List,
    /// Runs the image in the file.
    Run,
}

/// What a line asks for.
#[derive(Clone, Copy)]
pub struct Command<'a> {
    pub verb: Verb,
    /// The name of a file.
    pub operand: &'a str,
    /// What the program gets to run.
    pub settings: Settings,
    /// How many steps its image may do.
    pub steps: u64,
}

/// The steps that an image may do where no number of them is given.
pub(crate) const DEFAULT_STEPS: u64 = 4_000_000_000;

pub(crate) const MOST_STEPS: u64 = 1_000_000_000_000;

/// The most digits of a number.
const MOST_DIGITS: usize = 20;

/// Which parts of a line were met.
#[derive(Clone, Copy)]
struct Met {
    operand: bool,
    steps: bool,
    heap: bool,
    stack: bool,
}

const NOTHING: Met = Met {
    operand: false,
    steps: false,
    heap: false,
    stack: false,
};

/// Whether this names a file: it is not empty and does not begin with `-`.
fn is_name(name: &str) -> bool
    ensures { result ≡ is_name name.now }
{
    !name.is_empty() && !name.as_bytes().starts_with(b"-")
}

/// Whether this names a source file: it names a file and ends in `.pas`.
fn is_source_name(name: &str) -> bool
    ensures { result ≡ is_source_name name.now }
{
    is_name(name) && name.as_bytes().ends_with(b".pas")
}

/// The number that these digits write, where they are at most 20 and it is in the range.
#[tactic(auto, unfolding(crate::specs::Reading::number_in))]
fn number(digits: &str, least: u64, most: u64) -> Option<u64>
    ensures is { (default : ℕ) → result ≡ number_in (record { least = least; most = most; default = default }) digits.now }
    ensures most { IfSome result (λ number. number ≤ most) }
{
    let bytes = digits.as_bytes();
    if bytes.len() > MOST_DIGITS || bytes.starts_with(b"+") {
        return None;
    }
    match u64::from_str_radix(digits, 10) {
        Ok(number) if least <= number && number <= most => Some(number),
        _ => None,
    }
}

/// The number of an option: that of its digits, if it is in the range, and the one that stands for it where there are none.
pub(crate) fn number_or(digits: Option<&str>, least: u64, most: u64, default: u64) -> Option<u64>
    ensures { result ≡ number_or (record { least = least; most = most; default = default }) (option_map (λ text. text.now) digits.entry) }
{
    match digits {
        Some(digits) => number(digits, least, most),
        None => Some(default),
    }
}

/// The same of a number of KiB.
pub(crate) fn kibibytes_or(digits: Option<&str>, least: u32, most: u32, default: u32) -> Option<u32>
    ensures { result ≡ number_or (record { least = least; most = most; default = default }) (option_map (λ text. text.now) digits.entry) }
{
    match digits {
        Some(digits) => match number(digits, u64::from(least), u64::from(most)) {
            Some(number) => Some(number as u32),
            None => None,
        },
        None => Some(default),
    }
}

/// The command with this word.
pub(crate) fn verb_of(word: &str) -> Option<Verb>
    ensures { result ≡ verb_of word.now }
{
    if word == "exec" {
        return Some(Verb::Exec);
    }
    if word == "build" {
        return Some(Verb::Build);
    }
    if word == "check" {
        return Some(Verb::Check);
    }
    if word == "list" {
        return Some(Verb::List);
    }
    if word == "run" {
        return Some(Verb::Run);
    }
    None
}

impl Verb {
    /// Whether this may be its operand.
    fn is_operand(self, name: &str) -> bool
        ensures { result ≡ is_operand self name.now }
    {
        match self {
            Verb::Run => is_name(name),
            _ => is_source_name(name),
        }
    }

    /// It runs an image, and may be told how many steps that may do.
    fn runs_image(self) -> bool
        ensures { result ≡ runs_image self }
    {
        matches!(self, Verb::Exec | Verb::Run)
    }

    /// It makes an image, and may be told the size of its heap and of its stack.
    fn makes_image(self) -> bool
        ensures { result ≡ makes_image self }
    {
        matches!(self, Verb::Exec | Verb::Build | Verb::List)
    }
}

impl Met {
    /// With the steps, if the command takes them and they were not met.
    fn with_steps(self, verb: Verb, digits: &str) -> Option<Met>
        ensures { result ≡ with_steps verb digits.now self }
    {
        if self.steps || !verb.runs_image() || number(digits, 1, MOST_STEPS).is_none() {
            return None;
        }
        Some(Met {
            steps: true,
            ..self
        })
    }

    /// With the size of the heap, if the command takes it and it was not met.
    fn with_heap(self, verb: Verb, digits: &str) -> Option<Met>
        ensures { result ≡ with_heap verb digits.now self }
    {
        if self.heap || !verb.makes_image() || number(digits, 64, 262_144).is_none() {
            return None;
        }
        Some(Met { heap: true, ..self })
    }

    /// With the size of the stack, if the command takes it and it was not met.
    fn with_stack(self, verb: Verb, digits: &str) -> Option<Met>
        ensures { result ≡ with_stack verb digits.now self }
    {
        if self.stack || !verb.makes_image() || number(digits, 16, 65_536).is_none() {
            return None;
        }
        Some(Met {
            stack: true,
            ..self
        })
    }

    /// With the option of this word, if it is one of the command's and was not met.
    #[tactic(auto, unfolding(crate::specs::Reading::with_option))]
    fn with_option(self, verb: Verb, word: &str, digits: &str) -> Option<Met>
        ensures { result ≡ with_option verb word.now digits.now self }
    {
        if word == "--steps" {
            return self.with_steps(verb, digits);
        }
        if word == "--heap" {
            return self.with_heap(verb, digits);
        }
        if word == "--stack" {
            return self.with_stack(verb, digits);
        }
        None
    }
}

/// Whether these words complete a line of the command. Nothing is met twice, so this calls itself four times at most.
#[tactic(auto, unfolding(crate::specs::Reading::completes))]
fn completes(verb: Verb, met: Met, words: &[String]) -> bool
    ensures { result ≡ completes verb None met (map string_bytes words.now) }
{
    let Some((word, rest)) = words.split_first() else {
        return met.operand;
    };
    let word = word.as_str();
    if is_name(word) {
        let with_operand = Met {
            operand: true,
            ..met
        };
        return !met.operand && verb.is_operand(word) && completes(verb, with_operand, rest);
    }
    let Some((digits, rest)) = rest.split_first() else {
        return false;
    };
    match met.with_option(verb, word, digits.as_str()) {
        Some(more) => completes(verb, more, rest),
        None => false,
    }
}

/// Whether the words are a command, by the grammar of the command line alone. It takes no memory.
#[tactic(auto, unfolding(crate::specs::Reading::is_command))]
pub(crate) fn is_command(words: &[String]) -> bool
    ensures { result ≡ is_command (map string_bytes words.now) }
{
    let Some((word, rest)) = words.split_first() else {
        return false;
    };
    match verb_of(word.as_str()) {
        Some(verb) => completes(verb, NOTHING, rest),
        None => false,
    }
}
