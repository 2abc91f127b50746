//! Which of the words is a file.
ghost use Rattle.std.specs.Prelude.{ℕ, ◌≡◌, ◌+◌, Option, None, Some, map, string_bytes};
ghost use Rattle.command_line.specs.FileWords.{begins_with_minus, file_word_place, takes_a_value};

// Whether the word is an option that has the next word as its value.
fn takes_a_value(word: &[u8]) -> bool
    ensures { result ≡ takes_a_value word.now }
{
    word == b"--pageout".as_slice() || word == b"--make".as_slice()
}

fn begins_with_minus(word: &[u8]) -> bool
    ensures { result ≡ begins_with_minus word.now }
{
    matches!(word, [b'-', ..])
}

/// The place of the word that is a file to be read in the place of standard input, where one of them may be: the first that is
/// neither an option nor the value of one.
pub fn file_word(words: &[String]) -> Option<usize>
    ensures { result ≡ file_word_place (map string_bytes words.now) }
{
    let mut at = 0;
    let mut is_value = false;
    let mut left = words;
    while let [first, rest @ ..] = left {
        let word = first.as_bytes();
        if is_value {
            is_value = false;
        } else if begins_with_minus(word) {
            is_value = takes_a_value(word);
        } else {
            return Some(at);
        }
        at += 1;
        left = rest;
    }
    None
}
