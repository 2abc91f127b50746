//! Why the host refused something, in its own words.
use std::io::ErrorKind;

/// What the host says of an error of this kind.
pub fn cause_text(kind: ErrorKind) -> &'static str {
    match kind {
        ErrorKind::NotFound => "No such file or directory",
        ErrorKind::PermissionDenied => "Permission denied",
        ErrorKind::IsADirectory => "Is a directory",
        ErrorKind::NotADirectory => "Not a directory",
        ErrorKind::ReadOnlyFilesystem => "Read-only file system",
        ErrorKind::FilesystemLoop => "Too many levels of symbolic links",
        ErrorKind::InvalidFilename => "File name too long",
        ErrorKind::ExecutableFileBusy => "Text file busy",
        ErrorKind::FileTooLarge => "File too large",
        ErrorKind::StorageFull => "No space left on device",
        ErrorKind::QuotaExceeded => "Disk quota exceeded",
        ErrorKind::BrokenPipe => "Broken pipe",
        ErrorKind::Interrupted => "Interrupted system call",
        ErrorKind::OutOfMemory => "Cannot allocate memory",
        ErrorKind::InvalidInput => "Invalid argument",
        _ => "Input/output error",
    }
}
