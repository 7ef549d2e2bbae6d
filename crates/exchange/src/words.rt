// The words of the command line.
ghost use Rattle.std.specs.Prelude.{◌≡◌, ◌↔◌, ◌∷◌, [], IfNone, IfSome, IsTrue, string_bytes};
ghost use Rattle.exchange.specs.Words.{Asks, TextsAsk};
ghost use Rattle.exchange.specs.declared.words.Request.{Request as Asked};

use crate::word_number::read_number;

/// What the words ask for.
#[derive(Clone, Copy, Debug, PartialEq, Eq)]
pub enum Request {
    Run,
    Check,
    /// A seed, and how many lines, from 1 to 100000.
    Work { seed: u64, count: u32 },
}

const LARGEST_COUNT: u64 = 100000;

/// Reads the words, without the program's name.
pub fn request_of(words: &[String]) -> Option<Request>
    ensures found { IfSome result (Asks words.now) }
    ensures none { IfNone result ((request : Asked) → Asks words.now request → ⊥) }
{
    match words {
        [word] => one_word(word),
        [first, second, third] => three_words(first, second, third),
        _ => None,
    }
}

fn one_word(word: &String) -> Option<Request>
    ensures found { IfSome result (TextsAsk (string_bytes word.now ∷ [])) }
    ensures none { IfNone result ((request : Asked) → TextsAsk (string_bytes word.now ∷ []) request → ⊥) }
{
    if is_word(word, "run") {
        return Some(Request::Run);
    }
    if is_word(word, "check") {
        return Some(Request::Check);
    }
    None
}

fn three_words(first: &String, second: &String, third: &String) -> Option<Request>
    ensures found { IfSome result (TextsAsk (string_bytes first.now ∷ string_bytes second.now ∷ string_bytes third.now ∷ [])) }
    ensures none { IfNone result ((request : Asked) → TextsAsk (string_bytes first.now ∷ string_bytes second.now ∷ string_bytes third.now ∷ []) request → ⊥) }
{
    if !is_word(first, "work") {
        return None;
    }
    let Some(seed) = read_number(second.as_bytes(), u64::MAX) else {
        return None;
    };
    let Some(count) = read_number(third.as_bytes(), LARGEST_COUNT) else {
        return None;
    };
    if count == 0 {
        return None;
    }
    Some(Request::Work {
        seed,
        count: count as u32,
    })
}

fn is_word(word: &String, text: &str) -> bool
    ensures { IsTrue result ↔ (string_bytes word.now ≡ text.now) }
{
    word.as_str() == text
}
