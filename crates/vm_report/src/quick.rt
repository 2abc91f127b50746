//! The lines of loads that gave a word and of stores that were done, which most lines of a long
//! report are, each in few pushes.
ghost use Rattle.std.specs.Prelude.{◌≡◌, ◌++◌, ◌∷◌, [], codes, decimal, OnOk};
ghost use Rattle.vm_script.specs.vm_types.Words.{IsWordSize};
ghost use Rattle.vm_report.specs.Texts.{word_text};

use crate::text::{byte_text, digits_of_number, digits_of_two, push_number, push_text};
use std::alloc::AllocError;

// Adds what stands behind a load's line number, in one push.
fn end_with_word(out: &mut Vec<u8>, size: u32, value: u32) -> Result<(), AllocError>
    requires { IsWordSize size }
    ensures { OnOk result (out.new.items
        ≡ out.old.items ++ (codes " load " ++ word_text size value ++ 10 ∷ [])) }
{
    match size {
        1 => {
            let [a, b] = byte_text((value % 256) as u8);
            push_text(
                out,
                &[b' ', b'l', b'o', b'a', b'd', b' ', b'0', b'x', a, b, b'\n'],
            )
        }
        2 => {
            let [a, b, c, d] = digits_of_two(value);
            push_text(
                out,
                &[
                    b' ', b'l', b'o', b'a', b'd', b' ', b'0', b'x', a, b, c, d, b'\n',
                ],
            )
        }
        _ => {
            let [a, b, c, d, e, f, g, h] = digits_of_number(value);
            push_text(
                out,
                &[
                    b' ', b'l', b'o', b'a', b'd', b' ', b'0', b'x', a, b, c, d, e, f, g, h, b'\n',
                ],
            )
        }
    }
}

/// Adds the line of a load that gave this word.
pub fn push_loaded(out: &mut Vec<u8>, line: u32, size: u32, value: u32) -> Result<(), AllocError>
    requires { IsWordSize size }
    ensures { OnOk result (out.new.items ≡ out.old.items
        ++ decimal line ++ codes " load " ++ word_text size value ++ 10 ∷ []) }
{
    push_number(out, line)?;
    end_with_word(out, size, value)
}

/// Adds the line of a store that was done.
pub fn push_stored(out: &mut Vec<u8>, line: u32) -> Result<(), AllocError>
    ensures { OnOk result
        (out.new.items ≡ out.old.items ++ decimal line ++ codes " store ok" ++ 10 ∷ []) }
{
    push_number(out, line)?;
    push_text(out, b" store ok\n")
}
