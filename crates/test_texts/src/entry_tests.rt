//! The line of an entry, read back.
use std::test::Fail;
use trace_text::entry_of_line;
use vm_types::{Call, Entry, Reply};

#[test]
fn an_entry_has_the_parts_of_its_line(rt: HostRuntime) -> Result<(), Fail> {
    let line = b"3 0000000000000102 store 0x00002000 2 0x004a = ok\n";
    let entry = Entry {
        process: 3,
        call: Call::Store {
            addr: 0x2000,
            size: 2,
            value: 0x4a,
        },
        reply: Reply::Done,
        cleared: 0x102,
    };
    assert_eq!(rt; entry_of_line(rt.alloc(), line)?, Some(entry));
    Ok(())
}
