//! Bits in words of 64, and an index of the words that are full.
ghost use Rattle.std.specs.Prelude.{◌≡◌, ◌≢◌, ℕ, ◌+◌, ◌-◌, ◌*◌, ◌/◌, ◌^◌, ◌<◌, ◌≤◌, ◌==◌, Bool, true, false, length, if◌then◌else◌, IfSome, IfNone};
ghost use Rattle.std.specs.Int.{bit_at};
ghost use Rattle.swap_slots.specs.Bits.{is_set, IsSummary, Marks};

fn with_bit(word: u64, k: u32) -> u64
    requires { k < 64 }
    ensures set { bit_at result k ≡ 1 }
    ensures others { (i : ℕ) → i < 64 → i ≢ k → bit_at result i ≡ bit_at word i }
{
    word | (1 << k)
}

fn without_bit(word: u64, k: u32) -> u64
    requires { k < 64 }
    ensures clear { bit_at result k ≡ 0 }
    ensures others { (i : ℕ) → i < 64 → i ≢ k → bit_at result i ≡ bit_at word i }
{
    word & !(1 << k)
}

fn lowest_clear(word: u64) -> usize
    requires { word < 2 ^ 64 - 1 }
    ensures within { result < 64 }
    ensures clear { bit_at word result ≡ 0 }
    ensures first { (i : ℕ) → i < result → bit_at word i ≡ 1 }
{
    word.trailing_ones() as usize
}

pub fn is_set(words: &[u64], place: usize) -> bool
    requires { place < 64 * length words.now }
    ensures { result ≡ is_set words.now place }
{
    (words[place / 64] >> (place % 64)) & 1 == 1
}

fn set_bit(words: &mut [u64], place: usize)
    requires { place < 64 * length words.old }
    ensures { Marks words.old words.new place true }
{
    let word = words[place / 64];
    words[place / 64] = with_bit(word, (place % 64) as u32);
}

fn clear_bit(words: &mut [u64], place: usize)
    requires { place < 64 * length words.old }
    ensures { Marks words.old words.new place false }
{
    let word = words[place / 64];
    words[place / 64] = without_bit(word, (place % 64) as u32);
}

// The first place whose bit is clear, if there is one.
fn first_clear(words: &[u64]) -> Option<usize>
    requires { length words.now ≤ 2 ^ 32 }
    ensures within { IfSome result (λ place. place < 64 * length words.now) }
    ensures clear { IfSome result (λ place. is_set words.now place ≡ false) }
    ensures first { IfSome result (λ place. (k : ℕ) → k < place → is_set words.now k ≡ true) }
    ensures none { IfNone result ((k : ℕ) → k < 64 * length words.now → is_set words.now k ≡ true) }
{
    for (i, word) in words.iter().enumerate() {
        if *word != u64::MAX {
            return Some(i * 64 + lowest_clear(*word));
        }
    }
    None
}

// The same, by the index of the full words.
pub fn first_free(words: &[u64], full: &[u64]) -> Option<usize>
    requires few { length words.now ≤ 2 ^ 32 }
    requires few_full { length full.now ≤ 2 ^ 32 }
    requires summary { IsSummary words.now full.now }
    // The first place whose bit is clear.
    ensures within { IfSome result (λ place. place < 64 * length words.now) }
    ensures clear { IfSome result (λ place. is_set words.now place ≡ false) }
    ensures first { IfSome result (λ place. (k : ℕ) → k < place → is_set words.now k ≡ true) }
    ensures none { IfNone result ((k : ℕ) → k < 64 * length words.now → is_set words.now k ≡ true) }
{
    let i = first_clear(full)?;
    if i >= words.len() {
        return None;
    }
    Some(i * 64 + lowest_clear(words[i]))
}

// Sets the bit at a place, in the index too where that fills the word.
pub fn take(words: &mut [u64], full: &mut [u64], place: usize)
    requires within { place < 64 * length words.old }
    requires clear { is_set words.old place ≡ false }
    requires summary { IsSummary words.old full.old }
    ensures marks { Marks words.old words.new place true }
    ensures summary { IsSummary words.new full.new }
{
    set_bit(words, place);
    if words[place / 64] == u64::MAX {
        set_bit(full, place / 64);
    }
}

// Clears the bit at a place, and its word's in the index.
pub fn give(words: &mut [u64], full: &mut [u64], place: usize)
    requires within { place < 64 * length words.old }
    requires summary { IsSummary words.old full.old }
    ensures marks { Marks words.old words.new place false }
    ensures summary { IsSummary words.new full.new }
{
    clear_bit(words, place);
    clear_bit(full, place / 64);
}
