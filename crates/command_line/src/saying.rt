//! What the words of the command say.
ghost use Rattle.std.specs.Prelude.{◌≡◌, IfOk, None, false, map, string_bytes};
ghost use Rattle.clap.specs.Words.{found_of, rows_of, takes};
ghost use Rattle.command_line.specs.Options.{sunvm_command};
ghost use Rattle.command_line.specs.Sayings.{saying_in, saying_of};

use crate::inquiry::Inquiry;
use crate::options::{Options, command, options_in};
use clap::ArgMatches;
use clap::error::ErrorKind;
use std::alloc::{AllocError, Global};

/// What the words of the command say: how a run is made, or that the program is asked about itself.
#[derive(Clone, Copy, Debug, PartialEq, Eq)]
pub enum Saying {
    Options(Options),
    Inquiry(Inquiry),
}

// What was found in the words. Help comes before the version, and both before a run.
fn saying_in(matches: &ArgMatches<'_>) -> Saying
    ensures { result ≡ saying_in (rows_of (found_of matches.now)) }
{
    if matches.get_one::<bool>("help").unwrap_or(false) {
        return Saying::Inquiry(Inquiry::Help);
    }
    if matches.get_one::<bool>("version").unwrap_or(false) {
        return Saying::Inquiry(Inquiry::Version);
    }
    Saying::Options(options_in(matches))
}

/// What the words behind the program's name say; none where the command doesn't take them.
///
/// Takes memory for the parse. Time: that of the words' lengths.
pub fn read_words(alloc: Global, words: &[String]) -> Result<Option<Saying>, AllocError>
    ensures means { IfOk result (λ said. said ≡ saying_of (map string_bytes words.now)) }
    ensures refuses { IfOk result (λ said. said ≡ None
        → takes sunvm_command (map string_bytes words.now) ≡ false) }
{
    match command(alloc)?.try_get_matches_from(words) {
        Ok(matches) => Ok(Some(saying_in(&matches))),
        Err(error) => match error.kind() {
            ErrorKind::OutOfMemory => Err(AllocError),
            _ => Ok(None),
        },
    }
}
