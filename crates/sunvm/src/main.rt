//! The virtual memory system as a program: it runs scripts of processes over simulated frames, disks and translations.
#![tactic(auto)]

mod blank_disk;
mod causes;
mod explaining;
mod host_disk;
mod host_rack;
mod report_output;
mod script_input;

use crate::causes::cause_text;
use crate::explaining::{Ended, explain};
use crate::host_rack::HostRack;
use crate::report_output::ReportOutput;
use crate::script_input::{Origin, ScriptInput};
use command_line::file_word;
use host_streams::{InputSource, OutputSink};
use std::alloc::AllocError;
use std::env;
use std::fs::{File, OpenFile};
use std::io::ErrorKind;
use std::process::ExitCode;
use vm_run::run;

// The words behind the program's name. Where one isn't text, an empty word stands for all: the command takes no such word.
fn words_of(rt: &HostRuntime) -> Result<Vec<String>, AllocError> {
    let mut words = Vec::new(rt.alloc());
    match env::args(rt) {
        Ok(args) => {
            for word in args.skip(1) {
                words.push(word)?;
            }
        }
        Err(error) if error.kind() == ErrorKind::OutOfMemory => return Err(AllocError),
        Err(_) => words.push(String::new(rt.alloc()))?,
    }
    Ok(words)
}

// A file that may be read, which is no folder.
fn open_script(rt: &HostRuntime, path: &str) -> Result<File, ErrorKind> {
    match File::open(rt, path) {
        Ok(file) => match file.metadata() {
            Ok(found) if found.is_dir() => Err(ErrorKind::IsADirectory),
            _ => Ok(file),
        },
        Err(error) => Err(error.kind()),
    }
}

// Where the script comes from, and its name. The word of a file that may be read is taken out of the words; another one stays there, and why it can't be read
// is handed back.
fn input_of(
    rt: &HostRuntime,
    words: &mut Vec<String>,
) -> (Origin, Option<String>, Option<ErrorKind>) {
    let mut refused = None;
    if let Some(at) = file_word(words) {
        if at < words.len() {
            match open_script(rt, &words[at]) {
                Ok(file) => return (Origin::File(file), Some(words.remove(at)), None),
                Err(kind) => refused = Some(kind),
            }
        }
    }
    (Origin::Standard(rt.stdin()), None, refused)
}

// Says why the word of a file isn't taken.
fn explain_word(rt: &HostRuntime, words: &[String], cause: ErrorKind) {
    if let Some(at) = file_word(words) {
        if let Some(word) = words.get(at) {
            let cause = cause_text(cause);
            let _ = eprintln!(rt; "sunvm: cannot open {word}: {cause}");
        }
    }
}

fn main(rt: HostRuntime) -> ExitCode {
    let alloc = rt.alloc();
    let Ok(mut words) = words_of(&rt) else {
        return ExitCode::from(8);
    };
    let is_quiet = words.iter().any(|word| word.as_str() == "--quiet");
    let (from, file, refused) = input_of(&rt, &mut words);
    let mut script = InputSource::new(ScriptInput::new(alloc, from));
    let mut out = OutputSink::new(ReportOutput::new(alloc, rt.stdout()));
    let mut rack = HostRack::new(alloc, &rt);
    let outcome = run(&rt, alloc, &words, &mut script, &mut out, &mut rack);
    if is_quiet {
        return ExitCode::from(outcome.status);
    }
    let (input, output) = (script.into_input(), out.into_output());
    if let Some(cause) = refused {
        explain_word(&rt, &words, cause);
    } else {
        let ended = Ended {
            name: match &file {
                Some(file) => file.as_str(),
                None => "standard input",
            },
            input: &input,
            unopened: rack.unopened(),
            last: output.last(),
        };
        explain(&rt, &ended, &outcome);
    }
    ExitCode::from(outcome.status)
}
