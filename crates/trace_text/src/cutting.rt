//! Lines of a text, cut off one by one.
ghost use Rattle.std.specs.Prelude.{ℕ, ◌≡◌, ◌≢◌, ◌≤◌, ◌<◌, ◌+◌, ◌-◌, ◌∷◌, ◌++◌, length, slice_index};
ghost use Rattle.trace_text.specs.TraceLines.{fed_lines};

// How many bytes the first line has, with its line feed: it ends with the first line feed, or with
// the text.
fn first_length(text: &[u8]) -> usize
    requires some { 0 < length text.now }
    ensures within { result ≤ length text.now }
    ensures one { 0 < result }
    ensures plain { (k : ℕ) → k + 1 < result → slice_index text.now k ≢ 10 }
    ensures fed { result < length text.now → slice_index text.now (result - 1) ≡ 10 }
{
    for (i, b) in text.iter().enumerate() {
        if *b == b'\n' {
            return i + 1;
        }
    }
    text.len()
}

/// A text's first line with its line feed, which the last one may lack, and what follows it.
pub fn cut_line(text: &[u8]) -> (&[u8], &[u8])
    ensures text { text.now ≡ result.0.now ++ result.1.now }
    ensures line { 0 < length text.now →
        fed_lines text.now ≡ result.0.now ∷ fed_lines result.1.now }
    ensures some { 0 < length text.now → 0 < length result.0.now }
{
    if text.is_empty() {
        return (text, text);
    }
    text.split_at(first_length(text))
}
