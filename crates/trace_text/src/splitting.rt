//! A line without its line feed, the words of a line, and whether two lines are the same.
ghost use Rattle.std.specs.Prelude.{ℕ, List, [], ◌∷◌, ◌++◌, ◌≡◌, ◌↔◌, ◌==◌, map as over, IfOk, IfSome, IfNone, IsTrue};
ghost use Rattle.std.specs.List.{slice_split};
ghost use Rattle.vm_report.specs.vm_script.Lines.{is_space};

use std::alloc::{AllocError, Global};

/// What stands before the line feed that ends a line; nothing where no line feed ends it.
pub fn body_of(line: &[u8]) -> Option<&[u8]>
    ensures some { IfSome result (λ body. line.now ≡ body.now ++ 10 ∷ []) }
    ensures none { IfNone result ((body : List ℕ) → ¬ (line.now ≡ body ++ 10 ∷ [])) }
{
    let (last, body) = line.split_last()?;
    if *last != b'\n' {
        return None;
    }
    Some(body)
}

/// What stands between a line's spaces.
pub fn words_of(alloc: Global, line: &[u8]) -> Result<Vec<&[u8]>, AllocError>
    ensures { IfOk result (λ words. over (λ w. w.now) words.items ≡ slice_split is_space line.now) }
{
    line.split(|b| *b == b' ').collect(alloc)
}

/// Whether the two have the same bytes.
pub fn are_same(line: &[u8], other: &[u8]) -> bool
    ensures { IsTrue result ↔ (line.now ≡ other.now) }
{
    line == other
}
