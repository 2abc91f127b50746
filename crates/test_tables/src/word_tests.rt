ghost use Rattle.std.specs.Prelude.{◌≡◌, ◌≤◌, length};

use bitflags::Flags;
use std::test::Fail;
use vm_types::*;

fn read(offset: u32, length: u32) -> Call
    ensures { result ≡ Call.Read 3 offset length }
{
    Call::Read {
        file: 3,
        offset,
        length,
    }
}

fn write(offset: u32, bytes: &[u8], rest: u32) -> Call
    requires { length bytes.now ≤ 64 }
    ensures { result ≡ Call.Write 3 offset bytes.now rest }
{
    Call::Write {
        file: 3,
        offset,
        bytes: Line::new(bytes),
        rest,
    }
}

#[test]
fn a_read_goes_on_behind_a_full_part(rt: HostRuntime) {
    let bytes = [7; 64];
    for (offset, length, got, want) in [
        (60, 100, 4, Some((64, 96))),
        (64, 96, 64, Some((128, 32))),
        (128, 32, 32, None),
        (60, 100, 3, None),
        (60, 100, 0, None),
        (60, 4, 4, None),
        (60, 3, 3, None),
        (0xffff_ff80, 100, 64, Some((0xffff_ffc0, 36))),
        (0xffff_ffc0, 100, 64, None),
    ] {
        let call = read(offset, length);
        let reply = Reply::Bytes(Line::new(&bytes[..got]));
        assert!(rt; call.is_well_formed(), "at {offset}");
        let want = want.map(|(offset, length)| read(offset, length));
        assert_eq!(rt; next_part(&call, &reply, &[]), want, "at {offset}");
        assert_eq!(rt; ends_call(&call, &reply), want.is_none(), "at {offset}");
    }
}

#[test]
fn a_write_goes_on_with_what_fits_its_line(rt: HostRuntime) {
    let bytes = [7; 126];
    for (offset, count, rest, want) in [
        (60, 4, 126, Some((64, 64, 62))),
        (64, 64, 62, Some((128, 62, 0))),
        (128, 62, 0, None),
        (10, 4, 60, Some((14, 50, 10))),
        (0xffff_ff80, 64, 70, Some((0xffff_ffc0, 64, 6))),
        (0xffff_ffc0, 64, 6, None),
    ] {
        let call = write(offset, &bytes[..count], rest as u32);
        assert!(rt; call.is_well_formed(), "at {offset}");
        let want = want.map(|(offset, count, rest)| write(offset, &bytes[..count], rest));
        assert_eq!(rt;
            next_part(&call, &Reply::Done, &bytes[..rest]),
            want,
            "at {offset}"
        );
        assert_eq!(rt;
            ends_call(&call, &Reply::Done),
            want.is_none(),
            "at {offset}"
        );
    }
    assert_eq!(rt; first_write(3, 60, &bytes), write(60, &bytes[..4], 122));
    assert_eq!(rt; first_write(3, 64, &bytes[..5]), write(64, &bytes[..5], 0));
}

#[test]
fn a_call_that_was_refused_or_met_a_device_error_ends(rt: HostRuntime) {
    let call = read(0, 100);
    for reply in [
        Reply::Refused(Errno::NoObject),
        Reply::Io {
            disk: 0,
            before: 0,
            after: 1,
        },
        Reply::Done,
    ] {
        assert_eq!(rt; next_part(&call, &reply, &[]), None);
        assert!(rt; ends_call(&call, &reply));
    }
    assert!(rt; ends_call(&Call::Exit, &Reply::Done));
    assert!(rt; ends_call(&cut(7), &Reply::Done));
}

#[test]
fn the_files_of_calls(rt: HostRuntime) {
    for (call, file, of_part) in [
        (read(0, 1), Some(3), Some(3)),
        (write(0, &[7], 0), Some(3), Some(3)),
        (cut(0), Some(3), None),
        (store(1, 1), None, None),
    ] {
        assert_eq!(rt; file_of_call(&call), file, "{call:?}");
        assert_eq!(rt; part_file(&call), of_part, "{call:?}");
    }
}

#[test]
fn the_form_of_calls(rt: HostRuntime) {
    let bytes = [7; 64];
    for (call, want) in [
        (Call::Load { addr: 3, size: 4 }, true),
        (Call::Load { addr: 0, size: 3 }, false),
        (store(1, 255), true),
        (store(1, 256), false),
        (store(2, 0xffff), true),
        (store(2, 0x1_0000), false),
        (store(4, 0xffff_ffff), true),
        (store(0, 0), false),
        (read(0, 1), true),
        (read(0, 0), false),
        (write(0, &bytes, 9), true),
        (write(1, &bytes, 9), false),
        (write(63, &bytes[..1], 9), true),
        (write(63, &bytes[..2], 9), false),
        (write(0, &[], 9), false),
        (protect(Prot::READ | Prot::WRITE), true),
        (protect(Prot::from_bits_retain(4)), false),
        (cut(0), true),
        (Call::Exit, true),
    ] {
        assert_eq!(rt; call.is_well_formed(), want, "{call:?}");
    }
}

fn cut(length: u32) -> Call
    ensures { result ≡ Call.Truncate 3 length }
{
    Call::Truncate { file: 3, length }
}

fn store(size: u32, value: u32) -> Call {
    Call::Store {
        addr: 0,
        size,
        value,
    }
}

fn protect(prot: Prot) -> Call {
    Call::Protect {
        addr: 0,
        length: 1,
        prot,
    }
}

#[test]
fn the_words_pages_and_protections(rt: HostRuntime) {
    assert_eq!(rt; word_bytes(4, 0x0102_0304).bytes(), [1, 2, 3, 4].as_slice());
    assert_eq!(rt; word_bytes(2, 0x0102).bytes(), [1, 2].as_slice());
    assert_eq!(rt; word_bytes(1, 2).len(), 1);
    assert_eq!(rt; word_value(&[1, 2, 3, 4]), 0x0102_0304);
    assert_eq!(rt; word_value(&[1, 2]), 0x0102);
    assert_eq!(rt; word_value(&[255]), 255);
    for (addr, page, user) in [
        (0, 0, false),
        (0xfff, 0, false),
        (0x1000, 1, true),
        (0x7fff_ffff, 0x7_ffff, true),
        (0x8000_0000, 0x8_0000, false),
    ] {
        assert_eq!(rt; page_of(addr), page);
        assert_eq!(rt; is_user_address(addr), user);
    }
    assert_eq!(rt; page_of(FIRST_ADDRESS), FIRST_PAGE);
    assert_eq!(rt; page_of(LAST_ADDRESS), LAST_PAGE);
    assert_eq!(rt; line_rest(60), 4);
    for (length, pages, in_page_1) in [
        (0, 0, 0),
        (1, 1, 0),
        (4096, 1, 0),
        (4097, 2, 1),
        (u32::MAX, 0x10_0000, 4096),
    ] {
        assert_eq!(rt; pages_in(length), pages);
        assert_eq!(rt; bytes_before(length, 1), in_page_1);
    }
    for (addr, length, valid) in [
        (0x1000, 1, true),
        (0x1000, 0, false),
        (0, 1, false),
        (0x1001, 1, false),
        (0x7fff_f000, 4096, true),
        (0x7fff_f000, 4097, false),
    ] {
        assert_eq!(rt; is_range(addr, length), valid);
    }
    assert!(rt; Line::new(&[]).is_empty());
    let both = Prot::READ | Prot::WRITE;
    assert!(rt; both.can_read() && both.can_write() && both.is_prot());
    assert!(rt; Prot::READ.is_within(both) && !both.is_within(Prot::READ));
}

#[test]
fn the_names_of_errors_and_signals(rt: HostRuntime) -> Result<(), Fail> {
    let alloc = rt.alloc();
    for (errno, number, name) in [
        (Errno::Invalid, 1, "Invalid"),
        (Errno::Access, 2, "Access"),
        (Errno::NoSwap, 3, "NoSwap"),
        (Errno::NoRoom, 4, "NoRoom"),
        (Errno::TooLarge, 5, "TooLarge"),
        (Errno::NotMapped, 6, "NotMapped"),
        (Errno::ReadOnly, 7, "ReadOnly"),
        (Errno::TooBig, 8, "TooBig"),
        (Errno::NoObject, 9, "NoObject"),
    ] {
        assert_eq!(rt; errno.number(), number);
        assert_eq!(rt; format!(in alloc; "{errno}")?.as_str(), name);
    }
    for (signal, text) in [
        (Signal::NoMap, "SEGV nomap"),
        (Signal::Prot, "SEGV prot"),
        (Signal::Align, "BUS align"),
        (Signal::Past, "BUS past"),
    ] {
        assert_eq!(rt; format!(in alloc; "{signal}")?.as_str(), text);
    }
    Ok(())
}
