//! Pages, lines and addresses.
ghost use Rattle.std.specs.Prelude.{◌≡◌, ◌≤◌, ◌+◌, ◌↔◌, IsTrue};
ghost use Rattle.std.specs.Bool.{OnTrue};
ghost use Rattle.vm_types.specs.Pages.{end_page, page, pages_in, bytes_before, IsUserAddress, IsUserPage, is_range, line_rest};

/// The bytes of a page.
pub const PAGE_SIZE: u32 = 4096;

/// The bytes of a line, the aligned piece of a file that one part of a read or a write stays inside.
pub const LINE_SIZE: u32 = 64;

/// The first address that a process may use; the page below it is never mapped.
pub const FIRST_ADDRESS: u32 = 0x1000;

/// The last address that a process may use.
pub const LAST_ADDRESS: u32 = 0x7fff_ffff;

/// The first page that a process may use.
pub const FIRST_PAGE: u32 = 1;

/// The last page that a process may use.
pub const LAST_PAGE: u32 = 0x7_ffff;

/// The page behind the last one that a process may use.
pub const END_PAGE: u32 = 0x8_0000;

/// The number of the page that an address lies in.
pub fn page_of(addr: u32) -> u32
    ensures { result ≡ page addr }
{
    addr / PAGE_SIZE
}

/// How many pages this many bytes take, the last one perhaps not full.
pub fn pages_in(length: u32) -> u32
    ensures pages { result ≡ pages_in length }
    ensures few { result ≤ 0x10_0000 }
{
    length / PAGE_SIZE + (length % PAGE_SIZE != 0) as u32
}

/// How many bytes of this page lie before the end of a file of this length: 0 to 4096.
pub fn bytes_before(length: u32, page: u32) -> u32
    ensures { result ≡ bytes_before length page }
{
    let before = PAGE_SIZE as u64 * page as u64;
    (length as u64).saturating_sub(before).min(PAGE_SIZE as u64) as u32
}

/// Whether a range begins a page, has a page, and ends within the user addresses.
pub fn is_range(addr: u32, length: u32) -> bool
    ensures range { result ≡ is_range addr length }
    ensures inside { OnTrue result (page addr + pages_in length ≤ end_page) }
{
    addr % PAGE_SIZE == 0
        && length != 0
        && FIRST_PAGE <= page_of(addr)
        && page_of(addr) + pages_in(length) <= END_PAGE
}

/// Whether a process may use this address.
pub fn is_user_address(addr: u32) -> bool
    ensures address { IsTrue result ↔ IsUserAddress addr }
    ensures page { IsTrue result ↔ IsUserPage (page addr) }
{
    FIRST_ADDRESS <= addr && addr <= LAST_ADDRESS
}

/// How many bytes there are from this offset to the end of its line: 1 to 64.
pub fn line_rest(offset: u32) -> u32
    ensures rest { result ≡ line_rest offset }
    ensures some { 1 ≤ result }
    ensures one_line { result ≤ LINE_SIZE }
{
    LINE_SIZE - offset % LINE_SIZE
}
