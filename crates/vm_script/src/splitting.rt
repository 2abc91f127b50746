//! The lines of a script and their fields, in one pass and without memory.
ghost use Rattle.std.specs.Prelude.{◌≡◌, ◌==◌, ◌≤◌, ◌&&◌, [], ◌∷◌, ◌++◌, length, map, take, drop};
ghost use Rattle.std.specs.List.{list_all};
ghost use Rattle.vm_script.specs.Lines.{is_graphic, is_plain, fields};
ghost use Rattle.vm_script.specs.Cursor.{first_line, after_line, after_spaces, after_graphic, field_of, after_field};

use arrayvec::ArrayVec;

/// The first line of a text.
#[derive(Drop)]
pub struct Split<'a> {
    /// Its fields, up to eight.
    pub fields: ArrayVec<&'a [u8], 8>,
    /// Whether all its bytes are from 0x20 to 0x7e.
    pub plain: bool,
    /// What follows the line.
    pub rest: &'a [u8],
}

fn skip_spaces(text: &[u8]) -> &[u8]
    ensures { result.now ≡ after_spaces text.now }
{
    let mut left = text;
    while let [b' ', rest @ ..] = left {
        left = rest;
    }
    left
}

// Whether all bytes are from 0x21 to 0x7e. Looks at all of them, so that a processor looks at many at once.
#[inline(always)]
fn are_graphic(bytes: &[u8]) -> bool
    ensures { result ≡ list_all is_graphic bytes.now }
{
    let mut right = true;
    for b in bytes {
        right = right & (33 <= *b && *b <= 126);
    }
    right
}

// Passes whole rows of bytes from 0x21 to 0x7e in front: the bytes of a write or a file are many.
fn skip_rows(text: &[u8]) -> &[u8]
    ensures { after_graphic result.now ≡ after_graphic text.now }
{
    let mut left = text;
    while 32 <= left.len() {
        let (row, rest) = left.split_at(32);
        if !are_graphic(row) {
            break;
        }
        left = rest;
    }
    left
}

// What follows the bytes from 0x21 to 0x7e in front.
fn skip_graphic(text: &[u8]) -> &[u8]
    ensures { result.now ≡ after_graphic text.now }
{
    let mut left = skip_rows(text);
    while let [b, rest @ ..] = left {
        if *b < 33 || 126 < *b {
            break;
        }
        left = rest;
    }
    left
}

// What follows the bytes in front that end no field.
fn skip_others(text: &[u8]) -> &[u8]
    ensures { result.now ≡ after_field text.now }
{
    let mut left = text;
    while let [b, rest @ ..] = left {
        if *b == b' ' || *b == b'\n' {
            break;
        }
        left = rest;
    }
    left
}

// The field in front, whether its bytes are all graphic, and what follows it.
#[tactic(auto, using(crate::proofs::Cursors::after_both, crate::proofs::Cursors::length_field, crate::proofs::Cursors::take_field, crate::proofs::Cursors::graphic_field, crate::proofs::Cursors::length_graphic))]
fn field(text: &[u8]) -> (&[u8], bool, &[u8])
    ensures field { result.0.now ≡ field_of text.now }
    ensures plain { result.1 ≡ list_all is_graphic (field_of text.now) }
    ensures rest { result.2.now ≡ after_field text.now }
{
    let behind = skip_graphic(text);
    let rest = skip_others(behind);
    let (field, _) = text.split_at(text.len() - rest.len());
    (field, behind.len() == rest.len(), rest)
}

fn both(a: bool, b: bool) -> bool
    ensures { result ≡ (a && b) }
{
    a && b
}

// Adds a field, where fewer than eight stand there.
fn put<'a>(fields: &mut ArrayVec<&'a [u8], 8>, word: &'a [u8])
    requires few { length fields.old.items ≤ 8 }
    ensures fields { map (λ f. f.now) fields.new.items
        ≡ take 8 (map (λ f. f.now) fields.old.items ++ word.now ∷ []) }
    ensures few { length fields.new.items ≤ 8 }
{
    if fields.len() < 8 {
        fields.push(word);
    }
}

/// Splits off the first line.

#[tactic(auto)]
pub fn split_line(text: &[u8]) -> Split
    ensures fields { map (λ f. f.now) result.fields.items ≡ take 8 (fields (first_line text.now)) }
    ensures plain { result.plain ≡ list_all is_plain (first_line text.now) }
    ensures rest { result.rest.now ≡ after_line text.now }
{
    let mut fields = ArrayVec::new();
    let mut plain = true;
    let mut left = skip_spaces(text);
    while let [b, rest @ ..] = left {
        if *b == b'\n' {
            return Split {
                fields,
                plain,
                rest,
            };
        }
        let (word, graphic, rest) = field(left);
        put(&mut fields, word);
        plain = both(plain, graphic);
        left = skip_spaces(rest);
    }
    Split {
        fields,
        plain,
        rest: left,
    }
}
