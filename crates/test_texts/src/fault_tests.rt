//! Scripts with a fault of each kind in each place where it can come.
use std::alloc::{AllocError, Global};
use std::test::Fail;
use vm_script::ScriptKind::{self, Byte, Bytes, Count, Long, Name, Number, Place, Value, Word};
use vm_script::parse;

// The line and the kind of a script's fault.
fn fault_of(alloc: Global, text: &str) -> Result<Option<(u32, ScriptKind)>, AllocError> {
    match parse(alloc, text.as_bytes())? {
        Ok(_) => Ok(None),
        Err(fault) => Ok(Some((fault.line, fault.kind))),
    }
}

// Reads the scripts. It fails at the first that has another fault, or none.
fn faults_are(alloc: Global, cases: &[(&str, u32, ScriptKind)]) -> Result<(), Fail> {
    for &(text, line, kind) in cases {
        let fault = fault_of(alloc, text)?;
        if fault != Some((line, kind)) {
            return Err(Fail::new(format_args!("{text}: {fault:?}")));
        }
    }
    Ok(())
}

#[test]
fn bytes_words_places_and_counts_come_in_this_order(rt: HostRuntime) -> Result<(), Fail> {
    faults_are(
        rt.alloc(),
        &[
            ("laod \t", 1, Byte),
            ("process\nload \u{7f}", 2, Byte),
            ("\n\n# \t\n laod 1", 4, Word),
            ("process\nwait#\nend", 2, Word),
            ("load 1", 1, Place),
            ("process\nprocess 1", 2, Place),
            ("frames 5\nframes", 2, Place),
            ("swap 5\nswap", 2, Place),
            ("translations 5\ntranslations", 2, Place),
            ("process\nend\nswap 4", 3, Place),
            ("process\ndisk 0", 2, Place),
            ("process\nend\nfile", 3, Place),
            ("end", 1, Place),
            ("fork", 1, Place),
            ("wait", 1, Place),
            ("process\nfork\nend", 4, Place),
            ("process\n", 2, Place),
            ("process\nload 1\nend", 2, Count),
            ("process\nload 1 2 3\nend", 2, Count),
            ("process\nwait 1", 2, Count),
            ("process\nmap any 1 r shared a 0 0 0 0", 2, Count),
            ("disk 0 blank", 1, Count),
            ("join 0 stripe", 1, Count),
            ("join 0 mirror 1 2", 1, Count),
            ("process\njoin 0 stripe 1", 2, Place),
            ("frames", 1, Count),
        ],
    )
}

#[test]
fn fields_of_calls_are_tested_from_the_left(rt: HostRuntime) -> Result<(), Fail> {
    faults_are(
        rt.alloc(),
        &[
            ("process\nload x 3", 2, Number),
            ("process\nload 0x123456789 1", 2, Number),
            ("process\nload 4294967296 1", 2, Number),
            ("process\nload 0X1 1", 2, Number),
            ("process\nload 0x 1", 2, Number),
            ("process\nload 1 x", 2, Number),
            ("process\nload 1 3", 2, Value),
            ("process\nstore 1 8 x", 2, Value),
            ("process\nstore 1 1 x", 2, Number),
            ("process\nstore 1 1 256", 2, Value),
            ("process\nmap some 1 q both a 0", 2, Number),
            ("process\nmap any x q both A x", 2, Number),
            ("process\nmap any 1 q both A x", 2, Value),
            ("process\nmap any 1 r both A x", 2, Value),
            ("process\nmap any 1 r shared A x", 2, Name),
            ("process\nmap any 1 r shared zero x", 2, Number),
            ("process\nunmap 1 x", 2, Number),
            ("process\nsync x 1", 2, Number),
            ("process\nprotect 1 2 x", 2, Value),
            ("process\nread zero 0 1", 2, Name),
            ("process\nread abcdefghijklmnopq 0 1", 2, Name),
            ("process\nread a 0 65537", 2, Value),
            ("process\nread a 0 0", 2, Value),
            ("process\nwrite a x 123", 2, Number),
            ("process\nwrite a 0 123", 2, Bytes),
            ("process\nwrite a 0 -", 2, Bytes),
            ("process\nwrite a 0 1g", 2, Bytes),
            ("process\ntruncate a b", 2, Number),
        ],
    )
}

#[test]
fn fields_of_the_set_up_are_tested_from_the_left(rt: HostRuntime) -> Result<(), Fail> {
    faults_are(
        rt.alloc(),
        &[
            ("frames x", 1, Number),
            ("disk x plain y", 1, Number),
            ("disk 0 plain y", 1, Value),
            ("disk 0 blank y", 1, Number),
            ("join x plain y", 1, Number),
            ("join 0 plain y", 1, Value),
            ("join 0 mirrors y", 1, Value),
            ("join 0 stripe y", 1, Number),
            ("file zero rx x x x", 1, Name),
            ("file a rx x x x", 1, Value),
            ("file a ro x x x", 1, Number),
            ("file a ro 0 x x", 1, Number),
            ("file a ro 0 1 x", 1, Bytes),
        ],
    )
}

#[test]
fn spaces_comments_and_empty_lines_are_no_fault(rt: HostRuntime) -> Result<(), Fail> {
    let right = " # x\t\n\nframes 9\nfile a ro 0 1 -\n process \n  load  0xFFfFFFFF  4 \nend";
    assert_eq!(rt; fault_of(rt.alloc(), right)?, None);
    Ok(())
}

// The fault of a front with so many of these behind it.
fn fault_of_many(
    alloc: Global,
    front: &str,
    more: &str,
    count: usize,
) -> Result<Option<(u32, ScriptKind)>, AllocError> {
    let mut text = String::new(alloc);
    text.push_str(front)?;
    for _ in 0..count {
        text.push_str(more)?;
    }
    fault_of(alloc, &text)
}

#[test]
fn long_scripts_and_long_fields(rt: HostRuntime) -> Result<(), Fail> {
    let cases = [
        ("", " ", 1_048_576, None),
        ("frames\t", " ", 1_048_570, Some((0, Long))),
        ("disk 0 path ", "p", 255, None),
        ("disk 0 path ", "p", 256, Some((1, Value))),
        ("file a rw 0 1 ", "00", 65_536, None),
        ("file a rw 0 1 ", "00", 65_537, Some((1, Bytes))),
    ];
    for (front, more, count, fault) in cases {
        assert_eq!(rt;
            fault_of_many(rt.alloc(), front, more, count)?,
            fault,
            "{front}"
        );
    }
    Ok(())
}
