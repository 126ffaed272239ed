//! The numbers among the words of a command.
#![tactic(auto)]

ghost use Rattle.std.specs.Prelude.{ℕ, ◌≡◌, None, IfSome};
ghost use Rattle.command_words.specs.Numbers.{IsNumberIn};

use itoa::Buffer;

/// The number that a word is, if it is one from the lowest on up to the highest: decimal digits without a leading zero or
/// a sign.
pub fn number_in(word: &str, lowest: u64, highest: u64) -> Option<u64>
    ensures number { IfSome result (IsNumberIn lowest highest word.now) }
    ensures none { result ≡ None → (n : ℕ) → ¬ IsNumberIn lowest highest word.now n }
{
    let Ok(number) = word.parse::<u64>() else {
        return None;
    };
    let mut digits = Buffer::new();
    let is_spelled = digits.format(number).as_bytes() == word.as_bytes();
    if is_spelled && lowest <= number && number <= highest {
        Some(number)
    } else {
        None
    }
}
