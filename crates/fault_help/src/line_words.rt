//! The words that a script's lines begin with, and the fields that each wants.
ghost use Rattle.std.specs.Prelude.{◌≡◌, ◌∷◌, []};
ghost use Rattle.fault_help.specs.LineWords as words;
ghost use Rattle.fault_help.specs.declared.line_words.Role.TheVariants as role;

/// A word that a script's line begins with.
#[derive(Clone, Copy)]
pub enum LineWord {
    Frames,
    Swap,
    Translations,
    Disk,
    Join,
    File,
    Process,
    Fork,
    End,
    Wait,
    Map,
    Unmap,
    Protect,
    Sync,
    Load,
    Store,
    Read,
    Write,
    Truncate,
}

/// What a field is to be.
#[derive(Clone, Copy)]
pub enum Role {
    Number,
    /// `any` or a number.
    Place,
    Size,
    Value,
    Prot,
    Kind,
    /// The name of a file; of a map `zero` too.
    Name,
    Bytes,
    /// How much a read reads.
    Length,
    Mode,
    /// `blank` or `path`.
    DiskForm,
    /// How many blocks a blank disk has, or the path of one.
    DiskSource,
    /// `stripe` or `mirror`.
    JoinForm,
    /// No field is wanted there.
    Free,
}

#[tactic(auto, unfolding(crate::specs::LineWords::setup_line_word))]
fn setup_line_word(field: &[u8]) -> Option<LineWord>
    ensures { result ≡ words.setup_line_word field.now }
{
    if field == b"frames".as_slice() {
        return Some(LineWord::Frames);
    }
    if field == b"swap".as_slice() {
        return Some(LineWord::Swap);
    }
    if field == b"translations".as_slice() {
        return Some(LineWord::Translations);
    }
    if field == b"disk".as_slice() {
        return Some(LineWord::Disk);
    }
    if field == b"join".as_slice() {
        return Some(LineWord::Join);
    }
    if field == b"file".as_slice() {
        return Some(LineWord::File);
    }
    None
}

#[tactic(auto, unfolding(crate::specs::LineWords::block_line_word))]
fn block_line_word(field: &[u8]) -> Option<LineWord>
    ensures { result ≡ words.block_line_word field.now }
{
    if field == b"process".as_slice() {
        return Some(LineWord::Process);
    }
    if field == b"fork".as_slice() {
        return Some(LineWord::Fork);
    }
    if field == b"end".as_slice() {
        return Some(LineWord::End);
    }
    if field == b"wait".as_slice() {
        return Some(LineWord::Wait);
    }
    setup_line_word(field)
}

#[tactic(auto, unfolding(crate::specs::LineWords::file_line_word))]
fn file_line_word(field: &[u8]) -> Option<LineWord>
    ensures { result ≡ words.file_line_word field.now }
{
    if field == b"read".as_slice() {
        return Some(LineWord::Read);
    }
    if field == b"write".as_slice() {
        return Some(LineWord::Write);
    }
    if field == b"truncate".as_slice() {
        return Some(LineWord::Truncate);
    }
    block_line_word(field)
}

/// The word that a line's first field is, where it is one.
#[tactic(auto, unfolding(crate::specs::LineWords::line_word))]
pub fn line_word(field: &[u8]) -> Option<LineWord>
    ensures { result ≡ words.line_word field.now }
{
    if field == b"map".as_slice() {
        return Some(LineWord::Map);
    }
    if field == b"unmap".as_slice() {
        return Some(LineWord::Unmap);
    }
    if field == b"protect".as_slice() {
        return Some(LineWord::Protect);
    }
    if field == b"sync".as_slice() {
        return Some(LineWord::Sync);
    }
    if field == b"load".as_slice() {
        return Some(LineWord::Load);
    }
    if field == b"store".as_slice() {
        return Some(LineWord::Store);
    }
    file_line_word(field)
}

/// The fields behind a word, as text.
pub fn form_text(word: LineWord) -> &'static [u8]
    ensures { result.now ≡ words.form_text word }
{
    match word {
        LineWord::Frames | LineWord::Swap | LineWord::Translations => b"N",
        LineWord::Disk => b"D blank N or D path P",
        LineWord::Join => b"D stripe E or D mirror E",
        LineWord::File => b"NAME MODE D PAGES BYTES",
        LineWord::Process | LineWord::Fork | LineWord::End | LineWord::Wait => b"no field",
        LineWord::Map => b"PLACE LENGTH PROT KIND OBJECT OFFSET",
        LineWord::Unmap | LineWord::Sync => b"ADDRESS LENGTH",
        LineWord::Protect => b"ADDRESS LENGTH PROT",
        LineWord::Load => b"ADDRESS SIZE",
        LineWord::Store => b"ADDRESS SIZE VALUE",
        LineWord::Read => b"NAME OFFSET LENGTH",
        LineWord::Write => b"NAME OFFSET BYTES",
        LineWord::Truncate => b"NAME LENGTH",
    }
}

// Six roles of which so many are given, and no field is wanted behind them.
fn roles(first: Role, second: Role, third: Role) -> [Role; 6]
    ensures { result ≡ first ∷ second ∷ third ∷ role.Free ∷ role.Free ∷ role.Free ∷ [] }
{
    [first, second, third, Role::Free, Role::Free, Role::Free]
}

/// What each field behind a word is to be.
pub fn roles_of(word: LineWord) -> [Role; 6]
    ensures { result ≡ words.roles_of word }
{
    match word {
        LineWord::Frames | LineWord::Swap | LineWord::Translations => roles(
            Role::Number,
            Role::Free,
            Role::Free,
        ),
        LineWord::Disk => roles(Role::Number, Role::DiskForm, Role::DiskSource),
        LineWord::Join => roles(Role::Number, Role::JoinForm, Role::Number),
        LineWord::File => [
            Role::Name,
            Role::Mode,
            Role::Number,
            Role::Number,
            Role::Bytes,
            Role::Free,
        ],
        LineWord::Process | LineWord::Fork | LineWord::End | LineWord::Wait => roles(
            Role::Free,
            Role::Free,
            Role::Free,
        ),
        LineWord::Map => [
            Role::Place,
            Role::Number,
            Role::Prot,
            Role::Kind,
            Role::Name,
            Role::Number,
        ],
        LineWord::Unmap | LineWord::Sync => roles(Role::Number, Role::Number, Role::Free),
        LineWord::Protect => roles(Role::Number, Role::Number, Role::Prot),
        LineWord::Load => roles(Role::Number, Role::Size, Role::Free),
        LineWord::Store => roles(Role::Number, Role::Size, Role::Value),
        LineWord::Read => roles(Role::Name, Role::Number, Role::Length),
        LineWord::Write => roles(Role::Name, Role::Number, Role::Bytes),
        LineWord::Truncate => roles(Role::Name, Role::Number, Role::Free),
    }
}
