//! What the words of a command line ask for.
ghost use Rattle.std.specs.Prelude.{ℕ, ◌≡◌, ◌≢◌, ◌≤◌, ◌∷◌, ◌↔◌, IsTrue, List, IfSome, None, decimal, map, string_bytes};
ghost use Rattle.storm.specs.Numbers.{AreInRange};
ghost use Rattle.storm.specs.declared.numbers.StormNumbers.{StormNumbers as StormNumbersData};
ghost use Rattle.zeus_cli.specs.Command.{Asks, storm_numbers};

use command_words::number_in;
use storm::StormNumbers;

/// What the program is asked for.
#[derive(Clone, Copy, Debug, PartialEq, Eq)]
pub(crate) enum Command {
    /// Run a script.
    Run,
    /// Answer a script of leases.
    Lease,
    /// Audit a report of a script.
    Audit,
    /// Run a storm.
    Storm(StormNumbers),
}

fn is_word(word: &String, wanted: &str) -> bool
    ensures { IsTrue result ↔ (string_bytes word.now ≡ wanted.now) }
{
    word.as_str() == wanted
}

/// The first word as a number in a range, and the words behind it.
fn take_number(words: &[String], lowest: u64, most: u64) -> Option<(u64, &[String])>
    ensures taken { IfSome result (λ t. map string_bytes words.now ≡ decimal t.0 ∷ map string_bytes t.1.now) }
    ensures range { IfSome result (λ t. (lowest ≤ t.0) × (t.0 ≤ most)) }
    ensures none { result ≡ None → (n : ℕ) → lowest ≤ n → n ≤ most → (rest : List (List ℕ))
        → map string_bytes words.now ≢ decimal n ∷ rest }
{
    let (word, rest) = words.split_first()?;
    let number = number_in(word.as_str(), lowest, most)?;
    Some((number, rest))
}

/// The eight numbers of a storm, if the words are these and no more, and each is in its range.
fn take_numbers(words: &[String]) -> Option<StormNumbers>
    ensures numbers { IfSome result (λ n. AreInRange n × (map string_bytes words.now ≡ storm_numbers n)) }
    ensures none { result ≡ None → (n : StormNumbersData) → AreInRange n → map string_bytes words.now ≢ storm_numbers n }
{
    let (nodes, words) = take_number(words, 1, 8)?;
    let (slots, words) = take_number(words, 1, 8)?;
    let (objects, words) = take_number(words, 1, 256)?;
    let (txs, words) = take_number(words, 0, 10_000)?;
    let (steps, words) = take_number(words, 0, 50_000)?;
    let (loss, words) = take_number(words, 0, 100)?;
    let (stops, words) = take_number(words, 0, 7)?;
    let (start, words) = take_number(words, 0, u64::MAX)?;
    if !words.is_empty() {
        return None;
    }
    Some(StormNumbers {
        nodes: nodes as u8,
        slots: slots as u8,
        objects: objects as u16,
        txs: txs as u32,
        steps: steps as u32,
        loss: loss as u8,
        stops: stops as u8,
        start,
    })
}

/// What the words ask for; nothing, if they are none that the program knows.
pub(crate) fn command_of(words: &[String]) -> Option<Command>
    ensures { Asks (map string_bytes words.now) result }
{
    let (name, rest) = words.split_first()?;
    if is_word(name, "storm") {
        return Some(Command::Storm(take_numbers(rest)?));
    }
    if !rest.is_empty() {
        return None;
    }
    if is_word(name, "run") {
        Some(Command::Run)
    } else if is_word(name, "lease") {
        Some(Command::Lease)
    } else if is_word(name, "audit") {
        Some(Command::Audit)
    } else {
        None
    }
}
