//! What is said on standard error of a run that ended.
use crate::causes::cause_text;
use crate::host_disk::HostDisk;
use crate::script_input::{Origin, ScriptInput};
use fault_help::{
    Errno, Signal, disk_rule_help, errno_help, path_of_disk, script_help, signal_help, volume_help,
};
use std::alloc::Global;
use std::io::ErrorKind;
use vm_core::{KernelHistory, Reply};
use vm_run::{Outcome, RunFault};

/// A run that ended, as far as it can be explained.
#[derive(Clone, Copy)]
pub struct Ended<'a> {
    /// The name of its script, as a user knows it.
    pub name: &'a str,
    /// Its script, and why it couldn't be read.
    pub input: &'a ScriptInput<Origin>,
    /// Why the host couldn't open a disk's file, where it couldn't.
    pub unopened: Option<Unopened>,
    /// The last line that it printed.
    pub last: &'a [u8],
}

/// Why a disk's file couldn't be opened.
#[derive(Clone, Copy)]
pub enum Unopened {
    /// The host refused it.
    Refused(ErrorKind),
    /// It is no regular file.
    NoFile,
    /// It has too many blocks, or its path isn't text.
    Other,
}

// The field of a line at a place, as a number.
fn number_at(line: &str, place: usize) -> Option<u32> {
    line.trim_end().split(' ').nth(place)?.parse().ok()
}

fn explain_script(rt: &HostRuntime, ended: &Ended<'_>) {
    match script_help(rt.alloc(), ended.name.as_bytes(), ended.input.kept()) {
        Ok(Some(line)) => {
            let _ = rt.stderr().write_all(&line);
        }
        _ => {}
    }
}

fn explain_trace(rt: &HostRuntime, ended: &Ended<'_>, last: &str) {
    let name = ended.name;
    match number_at(last, 2) {
        Some(line) => {
            let _ = eprintln!(rt; "sunvm: {name}:{line}: no trace has this line here");
        }
        None => {
            let _ = eprintln!(rt; "sunvm: {name}: a trace has at most 16777216 bytes");
        }
    }
}

// Of a set-up rule that looks at disks; else of one that looks at the script alone.
fn explain_rule(rt: &HostRuntime, ended: &Ended<'_>, last: &str) {
    let name = ended.name;
    let rule = number_at(last, 2).unwrap_or(0);
    if let (Some(disk), Some(volume)) = (number_at(last, 4), number_at(last, 6)) {
        let text = volume_help(volume);
        let _ = eprintln!(rt; "sunvm: {name}: disk {disk}: {text}");
    } else if 9 < rule && rule < 13 || rule == 15 {
        let text = disk_rule_help(rule);
        let _ = eprintln!(rt; "sunvm: {name}: {text}");
    } else {
        explain_script(rt, ended);
    }
}

fn explain_unopened(rt: &HostRuntime, ended: &Ended<'_>, disk: u32) {
    let cause = match ended.unopened {
        Some(Unopened::Refused(kind)) => cause_text(kind),
        Some(Unopened::NoFile) => "Not a regular file",
        _ => "Too long for a disk",
    };
    let found = path_of_disk(rt.alloc(), ended.input.kept(), disk);
    let path = match &found {
        Ok(Some(path)) => str::from_utf8(path).unwrap_or("its file"),
        _ => "its file",
    };
    let _ = eprintln!(rt; "sunvm: disk {disk}: cannot open {path}: {cause}");
}

fn explain_fault(rt: &HostRuntime, ended: &Ended<'_>, fault: &RunFault) {
    let (disk, place) = match fault {
        RunFault::Opening(fault) => {
            if fault.counts().is_none() {
                return explain_unopened(rt, ended, fault.disk());
            }
            (fault.disk(), "before the processes ran")
        }
        RunFault::Closing(fault) => (fault.disk, "as the files were closed"),
        RunFault::Showing(fault) => (fault.disk, "as a file was read back"),
    };
    let _ = eprintln!(rt; "sunvm: disk {disk}: a transfer failed {place}");
}

const SIGNALS: [Signal; 4] = [Signal::NoMap, Signal::Prot, Signal::Align, Signal::Past];

const ERRNOS: [Errno; 9] = [
    Errno::Invalid,
    Errno::Access,
    Errno::NoSwap,
    Errno::NoRoom,
    Errno::TooLarge,
    Errno::NotMapped,
    Errno::ReadOnly,
    Errno::TooBig,
    Errno::NoObject,
];

// Which signals and refusals a history has: signals first, and device errors last.
fn replies_of(history: &KernelHistory) -> [bool; 14] {
    let mut seen = [false; 14];
    let entries = history.entries();
    for place in 0..entries.len() {
        let at = match entries.at(place).entry().reply {
            Reply::Signal(signal) => signal as usize,
            Reply::Refused(errno) => 3 + errno.number() as usize,
            Reply::Io { .. } => 13,
            _ => 14,
        };
        if let Some(flag) = seen.get_mut(at) {
            *flag = true;
        }
    }
    seen
}

fn explain_replies(rt: &HostRuntime, ended: &Ended<'_>, history: &KernelHistory) {
    let name = ended.name;
    let seen = replies_of(history);
    for at in 0..4 {
        if seen[at] {
            let (told, text) = (SIGNALS[at].text(), signal_help(SIGNALS[at]));
            let _ = eprintln!(rt; "sunvm: {name}: {told}: {text}");
        }
    }
    for at in 0..9 {
        if seen[4 + at] {
            let (number, told, text) = (
                ERRNOS[at].number(),
                ERRNOS[at].name(),
                errno_help(ERRNOS[at]),
            );
            let _ = eprintln!(rt; "sunvm: {name}: error {number} {told}: {text}");
        }
    }
    if seen[13] {
        let _ = eprintln!(rt;
            "sunvm: {name}: io: a transfer for the line failed, and its disk counted a fault"
        );
    }
}

/// Says on standard error, in one line, why a run ended as it did; of one that came to its end a line for each kind of signal and refusal in it.
pub fn explain(rt: &HostRuntime, ended: &Ended<'_>, outcome: &Outcome<HostDisk>) {
    let name = ended.name;
    let last = str::from_utf8(ended.last).unwrap_or("");
    let cause = cause_text(ended.input.cause().unwrap_or(ErrorKind::Other));
    match outcome.status {
        0 => explain_replies(rt, ended, &outcome.history),
        3 if last.starts_with("trace") => explain_trace(rt, ended, last),
        3 => explain_script(rt, ended),
        4 => explain_rule(rt, ended, last),
        5 => {
            let _ = eprintln!(rt; "sunvm: {name}: cannot be read: {cause}");
        }
        6 => {
            let _ = eprintln!(rt; "sunvm: standard output cannot be written");
        }
        7 => match &outcome.fault {
            Some(fault) => explain_fault(rt, ended, fault),
            None => {}
        },
        8 => {
            let _ = eprintln!(rt; "sunvm: memory ran out");
        }
        9 => {
            let entry = number_at(last, 2).unwrap_or(0);
            let _ = eprintln!(rt;
                "sunvm: {name}: entry {entry} is the first that flat memory doesn't allow"
            );
        }
        _ => {
            let _ = eprintln!(rt;
                "sunvm: these words aren't taken; sunvm --help prints those that are"
            );
        }
    }
}
