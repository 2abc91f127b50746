//! Scripts that are made: a disk and its files.
use std::alloc::{AllocError, Global};

/// Two lines, of a disk and of a file of so many bytes, all 0x41.
pub fn file_lines(alloc: Global, count: usize) -> Result<String, AllocError> {
    let mut script = String::from_str(alloc, "disk 0 blank 8\nfile c rw 0 2 ")?;
    for _ in 0..count {
        script.push_str("41")?;
    }
    script.push_str("\n")?;
    Ok(script)
}

// A process begins with such a file.
pub fn script_of_file(alloc: Global, count: usize) -> Result<String, AllocError> {
    let mut script = file_lines(alloc, count)?;
    script.push_str("process\n")?;
    Ok(script)
}

/// So many files of one page each on one disk.
pub fn many_files(alloc: Global, count: u32) -> Result<String, AllocError> {
    let mut script = String::from_str(alloc, "disk 0 blank 128\n")?;
    for file in 0..count {
        script.push_str(&format!(in alloc; "file f{file} rw 0 1 -\n")?)?;
    }
    script.push_str("process\nend\n")?;
    Ok(script)
}
