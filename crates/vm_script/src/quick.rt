//! Loads and stores whose fields stand one space apart, which most lines of a long script are, in
//! one pass.
ghost use Rattle.std.specs.Prelude.{◌≡◌, ◌<◌, ◌∷◌, ◌++◌, true, IfSome, codes};
ghost use Rattle.flat_model.specs.vm_types.declared.call.Call.TheVariants as call;
ghost use Rattle.flat_model.specs.vm_types.Words.{IsWordSize};
ghost use Rattle.vm_script.specs.Fields.{is_digit, is_hex_digit, digit_value};
ghost use Rattle.vm_script.specs.Quick.{BeginsWithDigits, BeginsWithNumber, BeginsWithCall};

use crate::call_lines::fits_word;

// The decimal digits in front of a text, up to ten.
#[tactic(auto, using(crate::proofs::QuickLines::digits_begin, crate::proofs::QuickLines::value_more, crate::proofs::QuickLines::right_more))]
fn decimal_in_front(text: &[u8]) -> Option<(u32, &[u8])>
    ensures { IfSome result (λ r. BeginsWithDigits 10 10 is_digit text.now r.0 r.1.now) }
{
    let most = text.len().min(10);
    let mut value = 0;
    let mut count = 0;
    while count < most && b'0' <= text[count] && text[count] <= b'9' {
        value = 10 * value + u64::from(text[count] - b'0');
        count += 1;
    }
    if count == 0 {
        return None;
    }
    let (_, rest) = text.split_at(count);
    match u32::try_from(value) {
        Ok(value) => Some((value, rest)),
        Err(_) => None,
    }
}

// The value of a hexadecimal digit: one look at the byte says both whether it is one and which.
#[inline(always)]
fn hexadecimal_digit(b: u8) -> Option<u32>
    ensures right { IfSome result (λ d. is_hex_digit b ≡ true) }
    ensures value { IfSome result (λ d. d ≡ digit_value b) }
    ensures small { IfSome result (λ d. d < 16) }
{
    if b'0' <= b && b <= b'9' {
        return Some(u32::from(b - b'0'));
    }
    if b'a' <= b && b <= b'f' {
        return Some(u32::from(b - 87));
    }
    if b'A' <= b && b <= b'F' {
        return Some(u32::from(b - 55));
    }
    None
}

// The hexadecimal digits in front of a text, up to eight.
#[tactic(auto, using(crate::proofs::QuickLines::digits_begin, crate::proofs::QuickLines::value_more, crate::proofs::QuickLines::right_more))]
fn hexadecimal_in_front(text: &[u8]) -> Option<(u32, &[u8])>
    ensures { IfSome result (λ r. BeginsWithDigits 16 8 is_hex_digit text.now r.0 r.1.now) }
{
    let most = text.len().min(8);
    let mut value = 0;
    let mut count = 0;
    while count < most {
        let Some(digit) = hexadecimal_digit(text[count]) else {
            break;
        };
        value = 16 * value + digit;
        count += 1;
    }
    if count == 0 {
        return None;
    }
    let (_, rest) = text.split_at(count);
    Some((value, rest))
}

#[tactic(auto, using(crate::proofs::QuickLines::decimal_begins, crate::proofs::QuickLines::hexadecimal_begins))]
fn number_in_front(text: &[u8]) -> Option<(u32, &[u8])>
    ensures { IfSome result (λ r. BeginsWithNumber text.now r.0 r.1.now) }
{
    if let Some(digits) = text.strip_prefix(b"0x".as_slice()) {
        let (n, rest) = hexadecimal_in_front(digits)?;
        return Some((n, rest));
    }
    let (n, rest) = decimal_in_front(text)?;
    Some((n, rest))
}

#[tactic(auto, using(crate::proofs::QuickLines::digit_begins))]
#[inline(always)]
fn size_in_front(text: &[u8]) -> Option<(u32, &[u8])>
    ensures number { IfSome result (λ r. BeginsWithNumber text.now r.0 r.1.now) }
    ensures size { IfSome result (λ r. IsWordSize r.0) }
{
    if let Some(rest) = after_byte(text, b'1') {
        return Some((1, rest));
    }
    if let Some(rest) = after_byte(text, b'2') {
        return Some((2, rest));
    }
    let rest = after_byte(text, b'4')?;
    Some((4, rest))
}

#[inline(always)]
fn after_byte(text: &[u8], b: u8) -> Option<&[u8]>
    ensures { IfSome result (λ rest. text.now ≡ b ∷ rest.now) }
{
    match text {
        [first, rest @ ..] => { if *first == b { Some(rest) } else { None } }
        _ => None,
    }
}

#[inline(always)]
fn after_load(text: &[u8]) -> Option<&[u8]>
    ensures { IfSome result (λ rest. text.now ≡ codes "load " ++ rest.now) }
{
    text.strip_prefix(b"load ".as_slice())
}

#[inline(always)]
fn after_store(text: &[u8]) -> Option<&[u8]>
    ensures { IfSome result (λ rest. text.now ≡ codes "store " ++ rest.now) }
{
    text.strip_prefix(b"store ".as_slice())
}

/// The address and the size of a load in front of a text, and what follows its line.
#[tactic(auto, using(crate::proofs::QuickLines::load_begins))]
#[inline(always)]
pub fn quick_load(text: &[u8]) -> Option<(u32, u32, &[u8])>
    ensures { IfSome result (λ r. BeginsWithCall text.now (call.Load r.0 r.1) r.2.now) }
{
    let args = after_load(text)?;
    let (addr, rest) = number_in_front(args)?;
    let rest = after_byte(rest, b' ')?;
    let (size, rest) = size_in_front(rest)?;
    let rest = after_byte(rest, b'\n')?;
    Some((addr, size, rest))
}

/// The address, the size and the value of a store in front of a text, and what follows its line.
#[tactic(auto, using(crate::proofs::QuickLines::store_begins))]
#[inline(always)]
pub fn quick_store(text: &[u8]) -> Option<(u32, u32, u32, &[u8])>
    ensures { IfSome result (λ r. BeginsWithCall text.now (call.Store r.0 r.1 r.2) r.3.now) }
{
    let args = after_store(text)?;
    let (addr, rest) = number_in_front(args)?;
    let rest = after_byte(rest, b' ')?;
    let (size, rest) = size_in_front(rest)?;
    let rest = after_byte(rest, b' ')?;
    let (value, rest) = number_in_front(rest)?;
    let rest = after_byte(rest, b'\n')?;
    if !fits_word(size, value) {
        return None;
    }
    Some((addr, size, value, rest))
}
