ghost use Rattle.std.specs.Prelude.{◌≡◌, ◌≤◌, ◌^◌, Some, None, IfSome, false};
ghost use Rattle.std.specs.Option.{option_copied};
ghost use Rattle.no_app.specs.Requests.{request_of, heard_of};
ghost use Rattle.no_app.specs.Words.{Finds, number_of, with_budget, budget_of, hear_value, hear_option, hear_word, hear, scanned, asked_of, finished};

use no_ir::Text;
use no_read_rules::decimal;
use std::convert::AsStr;

/// What the words ask for: a file, and a budget of instructions.
#[derive(Clone, Copy)]
pub(crate) struct Request<'a> {
    pub file: &'a Text,
    pub steps: u64,
}

/// What the words so far say.
#[derive(Clone, Copy)]
struct Heard<'a> {
    /// The value of the option has to come next.
    waiting: bool,
    file: Option<&'a Text>,
    steps: Option<u64>,
}

/// The budget where no word states one.
const DEFAULT_BUDGET: u64 = 1_000_000_000;

/// The number that digits spell, one at least, where it is at most `most`.
#[tactic(auto, using(crate::proofs::Numbers::decimal_within))]
fn number(most: u64, text: &[u8]) -> Option<u64>
    ensures value { result ≡ number_of most text.now }
    ensures within { IfSome result (λ n. n ≤ most) }
{
    match text {
        [] => None,
        _ => decimal(most, text),
    }
}

/// A number of 1 to 20 digits, at most 2 to the 32nd.
fn budget(word: &str) -> Option<u64>
    ensures value { result ≡ budget_of word.now }
    ensures within { IfSome result (λ n. n ≤ 2 ^ 32) }
{
    if word.len() > 20 {
        return None;
    }
    number(4_294_967_296, word.as_bytes())
}

/// The budget may come once.
fn once(word: &str, steps: Option<u64>) -> Option<u64>
    ensures value { result ≡ with_budget word.now steps }
    ensures within { IfSome result (λ n. n ≤ 2 ^ 32) }
{
    match steps {
        None => budget(word),
        Some(_) => None,
    }
}

/// The value of the option, in a word of its own.
fn value_heard<'a>(word: &str, file: Option<&'a Text>, steps: Option<u64>) -> Option<Heard<'a>>
    ensures value { Finds heard_of result (hear_value word.now (option_copied file.entry) steps) }
    ensures within { IfSome result (λ h. IfSome h.steps (λ n. n ≤ 2 ^ 32)) }
{
    if word.as_bytes().starts_with(b"-") {
        return None;
    }
    let n = once(word, steps)?;
    Some(Heard {
        waiting: false,
        file,
        steps: Some(n),
    })
}

/// An option, with its value in the same word or not.
fn option_heard<'a>(word: &str, file: Option<&'a Text>, steps: Option<u64>) -> Option<Heard<'a>>
    requires { IfSome steps (λ n. n ≤ 2 ^ 32) }
    ensures value { Finds heard_of result (hear_option word.now (option_copied file.entry) steps) }
    ensures within { IfSome result (λ h. IfSome h.steps (λ n. n ≤ 2 ^ 32)) }
{
    if word == "--steps" {
        return Some(Heard {
            waiting: true,
            file,
            steps,
        });
    }
    let rest = word.strip_prefix("--steps=")?;
    let n = once(rest, steps)?;
    Some(Heard {
        waiting: false,
        file,
        steps: Some(n),
    })
}

/// A word that is no value.
fn word_heard<'a>(word: &'a Text, file: Option<&'a Text>, steps: Option<u64>) -> Option<Heard<'a>>
    requires { IfSome steps (λ n. n ≤ 2 ^ 32) }
    ensures value { Finds heard_of result (hear_word word.now (option_copied file.entry) steps) }
    ensures within { IfSome result (λ h. IfSome h.steps (λ n. n ≤ 2 ^ 32)) }
{
    let bytes = word.as_str().as_bytes();
    if bytes.starts_with(b"--") {
        return option_heard(word.as_str(), file, steps);
    }
    if bytes.starts_with(b"-") || file.is_some() {
        return None;
    }
    Some(Heard {
        waiting: false,
        file: Some(word),
        steps,
    })
}

/// The next word.
fn next_heard<'a>(heard: Heard<'a>, word: &'a Text) -> Option<Heard<'a>>
    requires { IfSome heard.steps (λ n. n ≤ 2 ^ 32) }
    ensures value { Finds heard_of result (hear heard.entry.waiting word.now (option_copied heard.entry.file) heard.entry.steps) }
    ensures within { IfSome result (λ h. IfSome h.steps (λ n. n ≤ 2 ^ 32)) }
{
    if heard.waiting {
        value_heard(word.as_str(), heard.file, heard.steps)
    } else {
        word_heard(word, heard.file, heard.steps)
    }
}

/// What the words after the command ask for.
fn scan(words: &[Text]) -> Option<Request<'_>>
    ensures value { Finds request_of result (scanned words.now false None None) }
    ensures within { IfSome result (λ r. r.steps ≤ 2 ^ 32) }
{
    let mut heard = Heard {
        waiting: false,
        file: None,
        steps: None,
    };
    for word in words {
        match next_heard(heard, word) {
            Some(next) => heard = next,
            None => return None,
        }
    }
    asked_for(heard)
}

/// What is asked for once all words are heard.
fn asked_for(heard: Heard<'_>) -> Option<Request<'_>>
    requires { IfSome heard.steps (λ n. n ≤ 2 ^ 32) }
    ensures value { Finds request_of result (finished heard.entry.waiting (option_copied heard.entry.file) heard.entry.steps) }
    ensures within { IfSome result (λ r. r.steps ≤ 2 ^ 32) }
{
    match heard.file {
        Some(file) if !heard.waiting => Some(Request {
            file,
            steps: heard.steps.unwrap_or(DEFAULT_BUDGET),
        }),
        _ => None,
    }
}

/// What the words ask for, none where they are not the words of a command.
pub(crate) fn read_words(words: &[Text]) -> Option<Request<'_>>
    ensures value { Finds request_of result (asked_of words.now) }
    ensures within { IfSome result (λ r. r.steps ≤ 2 ^ 32) }
{
    match words {
        [command, more @ ..] if command.as_str() == "local" => scan(more),
        _ => None,
    }
}
