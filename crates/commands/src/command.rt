//! What the words of a command line ask for.

ghost use Rattle.std.specs.Prelude.{◌≡◌, ◌<◌, ◌^◌, ◌≤◌, map, IfSome};
ghost use Rattle.std.specs.Char.{is_ascii_digit};
ghost use Rattle.std.specs.List.{list_all};
ghost use Rattle.std.specs.Option.{option_map};
ghost use Rattle.std.specs.String.{string_bytes};
ghost use Rattle.commands.specs.CommandLine.{command_of, is_decimal, number_within, lone_word, two_words, three_words, soak_words, command_view, IsWithin};

/// The most operators that an `invoke` may be given to spend.
const GREATEST_BUDGET: u64 = 1 << 40;

/// The most requests of a `soak`.
const MOST_REQUESTS: u64 = 4096;

/// The most digits of a number among the words.
const MOST_DIGITS: usize = 20;

/// A command with its words.
#[derive(Clone, Copy)]
pub enum Command<'a> {
    /// `--help`: shows every shape and every status.
    Help,
    /// `--version`: shows the product's name and version.
    Version,
    /// `invoke MODULE BODY BUDGET`: runs a module once on a request body.
    Invoke(Invoke<'a>),
    /// `check CONFIG`: checks the configuration in the file of this name, with its modules.
    Check(&'a str),
    /// `replay CONFIG RECORDING`: answers what a recording has, as the configuration says.
    Replay(Replay<'a>),
    /// `soak START COUNT`: replays a load that the program makes for itself.
    Soak(Soak),
}

/// The words of a `soak`.
#[derive(Clone, Copy)]
pub struct Soak {
    /// Where the load's generator starts.
    pub start: u64,
    /// How many requests there are, 1 to 4,096.
    pub count: u32,
}

/// The words of a `replay`.
#[derive(Clone, Copy)]
pub struct Replay<'a> {
    /// The name of the file with the configuration.
    pub config_name: &'a str,
    /// The name of the file with the recording.
    pub recording_name: &'a str,
}

/// The words of an `invoke`.
#[derive(Clone, Copy)]
pub struct Invoke<'a> {
    /// The name of the file with the module.
    pub module_name: &'a str,
    /// The name of the file with the request body.
    pub body_name: &'a str,
    /// The fuel limit in units of price, 0 to 2^40.
    pub budget: u64,
}

impl<'a> Command<'a> {
    /// The command that the words have the shape of, or `None`.
    pub fn parse(words: &'a [String]) -> Option<Command<'a>>
        ensures shape { option_map command_view result ≡ command_of (map string_bytes words.now) }
        ensures within { IfSome result IsWithin }
    {
        match words {
            [word] => lone_word(word.as_str()),
            [word, name] => two_words(word.as_str(), name.as_str()),
            [word, first, second] => three_words(word.as_str(), first.as_str(), second.as_str()),
            [word, module, body, budget] => {
                if word.as_str() != "invoke" {
                    return None;
                }
                let budget = number_within(budget.as_str(), 0, GREATEST_BUDGET)?;
                Some(Command::Invoke(Invoke {
                    module_name: module.as_str(),
                    body_name: body.as_str(),
                    budget,
                }))
            }
            _ => None,
        }
    }
}

/// The command that is asked for by one word.
fn lone_word(word: &str) -> Option<Command<'_>>
    ensures shape { option_map command_view result ≡ lone_word word.now }
    ensures within { IfSome result IsWithin }
{
    if word == "--help" {
        Some(Command::Help)
    } else if word == "--version" {
        Some(Command::Version)
    } else {
        None
    }
}

/// The command that is asked for by two words.
fn two_words<'a>(word: &str, name: &'a str) -> Option<Command<'a>>
    ensures shape { option_map command_view result ≡ two_words word.now name.now }
    ensures within { IfSome result IsWithin }
{
    if word == "check" {
        Some(Command::Check(name))
    } else {
        None
    }
}

/// The command that is asked for by three words.
fn three_words<'a>(word: &str, first: &'a str, second: &'a str) -> Option<Command<'a>>
    ensures shape { option_map command_view result ≡ three_words word.now first.now second.now }
    ensures within { IfSome result IsWithin }
{
    if word == "replay" {
        Some(Command::Replay(Replay {
            config_name: first,
            recording_name: second,
        }))
    } else if word == "soak" {
        soak_words(first, second)
    } else {
        None
    }
}

/// The `soak` that these two words ask for.
fn soak_words<'a>(start: &str, count: &str) -> Option<Command<'a>>
    ensures shape { option_map command_view result ≡ soak_words start.now count.now }
    ensures within { IfSome result IsWithin }
{
    let start = number_within(start, 0, u64::MAX)?;
    let count = number_within(count, 1, MOST_REQUESTS)?;
    Some(Command::Soak(Soak {
        start,
        count: count as u32,
    }))
}

/// The number that 1 to 20 decimal digits write, where it is in this range.
fn number_within(word: &str, least: u64, most: u64) -> Option<u64>
    ensures value { result ≡ number_within least most word.now }
    ensures above { IfSome result (λ number. least ≤ number) }
    ensures below { IfSome result (λ number. number ≤ most) }
{
    if !is_decimal(word.as_bytes()) {
        return None;
    }
    let number = word.parse::<u64>().ok()?;
    if number < least {
        return None;
    }
    if most < number {
        return None;
    }
    Some(number)
}

/// Whether the bytes are 1 to 20 decimal digits. Leading zeros are digits like others.
fn is_decimal(word: &[u8]) -> bool
    ensures { result ≡ is_decimal word.now }
{
    !word.is_empty() && word.len() <= MOST_DIGITS && all_digits(word)
}

fn all_digits(word: &[u8]) -> bool
    ensures { result ≡ list_all is_ascii_digit word.now }
{
    word.iter().all(|digit| digit.is_ascii_digit())
}
