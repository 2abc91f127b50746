//! The command and its options.
ghost use Rattle.std.specs.Prelude.{◌≡◌, IfOk, false};
ghost use Rattle.clap.specs.Words.{app_of, found_of, rows_of, rule_of};
ghost use Rattle.command_line.specs.Options.{flag_rule, help_word_rule, make_rule, options_in, pageout_rule, sunvm_command};

use clap::{Arg, ArgAction, ArgMatches, Command, value_parser};
use std::alloc::{AllocError, Global};

/// What the words of the command say of a run.
#[derive(Clone, Copy, Debug, PartialEq, Eq)]
pub struct Options {
    /// Whether the report begins with a trace.
    pub trace: bool,
    /// How many turns the pageout daemon makes.
    pub pageout: u32,
    /// The number of the generated script that is run in place of the input.
    pub make: Option<u32>,
    /// Whether the input is a trace that is checked; the other options then have no effect.
    pub check: bool,
    /// Whether nothing is said on standard error.
    pub quiet: bool,
}

// A flag without a value.
fn flag<'a>(alloc: Global, name: &'a str) -> Arg<'a>
    ensures rule { rule_of result ≡ flag_rule name.now }
    ensures own { result.global ≡ false }
{
    Arg::new(alloc, name).long(name).action(ArgAction::SetTrue)
}

fn help_word<'a>(alloc: Global) -> Arg<'a>
    ensures rule { rule_of result ≡ help_word_rule }
    ensures own { result.global ≡ false }
{
    flag(alloc, "help").short('h')
}

fn pageout_word<'a>(alloc: Global) -> Arg<'a>
    ensures rule { rule_of result ≡ pageout_rule }
    ensures own { result.global ≡ false }
{
    Arg::new(alloc, "pageout")
        .long("pageout")
        .value_parser(value_parser!(u32).range(..=1_000_000))
        .default_value("0")
}

fn make_word<'a>(alloc: Global) -> Arg<'a>
    ensures rule { rule_of result ≡ make_rule }
    ensures own { result.global ≡ false }
{
    Arg::new(alloc, "make")
        .long("make")
        .value_parser(value_parser!(u32))
}

// The command line.
pub fn command<'a>(alloc: Global) -> Result<Command<'a>, AllocError>
    ensures { IfOk result (λ c. app_of c ≡ sunvm_command) }
{
    let named = Command::new(alloc, "sunvm")
        .no_binary_name(true)
        .disable_help_flag(true);
    let of_runs = named
        .arg(flag(alloc, "trace"))?
        .arg(pageout_word(alloc))?
        .arg(make_word(alloc))?;
    of_runs
        .arg(flag(alloc, "check"))?
        .arg(flag(alloc, "quiet"))?
        .arg(help_word(alloc))?
        .arg(flag(alloc, "version"))
}

// What was found in the words.
pub fn options_in(matches: &ArgMatches<'_>) -> Options
    ensures { result ≡ options_in (rows_of (found_of matches.now)) }
{
    Options {
        trace: matches.get_one::<bool>("trace").unwrap_or(false),
        pageout: matches.get_one::<u32>("pageout").unwrap_or(0),
        make: matches.get_one::<u32>("make"),
        check: matches.get_one::<bool>("check").unwrap_or(false),
        quiet: matches.get_one::<bool>("quiet").unwrap_or(false),
    }
}
