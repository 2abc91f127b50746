//! What the program says of itself.
ghost use Rattle.std.specs.Prelude.{◌≡◌};
ghost use Rattle.command_line.specs.Inquiries.{help_text, inquiry_text, version_text};

/// What the words ask about the program itself.
#[derive(Clone, Copy, Debug, PartialEq, Eq)]
pub enum Inquiry {
    /// How it is used.
    Help,
    /// Which version it is.
    Version,
}

// The version, and the toolchain and the logic with which it was proved.
#[tactic(auto, unfolding(crate::specs::Inquiries::version_text))]
fn version() -> &'static [u8]
    ensures { result.now ≡ version_text }
{
    b"sunvm 0.9.2, proved with rattle-kit-13f, logic dac8208d650f15bf\n"
}

// The page of help.
#[tactic(auto, unfolding(crate::specs::Inquiries::help_text))]
fn help() -> &'static [u8]
    ensures { result.now ≡ help_text }
{
    b"\
usage: sunvm [WORDS] [SCRIPT]     runs a script: the file, or else standard input\n\
\x20      sunvm --check [TRACE]      judges a trace\n\
\n\
words:\n\
\x20 --trace        print the trace too\n\
\x20 --pageout N    make so many turns of the pageout daemon, 0 to 1000000\n\
\x20 --make N       run the generated script of this number, and print its summary\n\
\x20 --check        read a trace, and say whether its history is legal\n\
\x20 --quiet        say nothing on standard error\n\
\x20 --help, -h     print this page\n\
\x20 --version      print the version, and the toolchain that proved it\n\
\n\
lines of a script before its first process:\n\
\x20 frames 64                        page frames\n\
\x20 swap 64                          swap slots\n\
\x20 translations 256                 translations\n\
\x20 disk 0 blank 8                   a disk of 8 blocks of zeros\n\
\x20 disk 1 path disk.img             a disk over a file\n\
\x20 join 0 mirror 1                  two disks as one: mirror or stripe\n\
\x20 file a rw 0 2 68656c6c6f         a file of disk 0: 2 pages, and the bytes of hello\n\
\n\
lines of processes:\n\
\x20 process                          begins a process\n\
\x20 fork                             begins a child of it\n\
\x20 end                              ends the process, or the child\n\
\x20 wait                             waits for the children\n\
\x20 map 0x2000 4096 rw shared a 0    maps a page of a file: any, private, zero\n\
\x20 unmap 0x2000 4096                unmaps it\n\
\x20 protect 0x2000 4096 r            says what may be done there: none, r, w, rw\n\
\x20 sync 0x2000 4096                 has the disk get what was stored there\n\
\x20 load 0x2000 1                    loads 1, 2 or 4 bytes\n\
\x20 store 0x2000 1 0x4a              stores them\n\
\x20 read a 0 5                       reads 5 bytes of a file, from the first on\n\
\x20 write a 0 4a                     writes bytes there\n\
\x20 truncate a 5                     makes it so long\n\
\x20 # a comment                      stands on a line of its own\n\
\n\
statuses:\n\
\x20 0 the whole text was written     5 the input couldn't be read\n\
\x20 2 the words aren't taken         6 the output couldn't be written\n\
\x20 3 no script, or no trace         7 a disk failed, or couldn't be attached\n\
\x20 4 a set-up rule is broken        8 memory ran out\n\
\x20                                  9 the trace's history isn't legal\n\
\n\
The manual is sunvm(1), in docs/sunvm.1; docs/formats.md has the formats in full.\n"
}

impl Inquiry {
    /// The text that it asks for.
    pub fn text(self) -> &'static [u8]
        ensures { result.now ≡ inquiry_text self }
    {
        match self {
            Inquiry::Help => help(),
            Inquiry::Version => version(),
        }
    }
}
