//! Set-up rules at their edges, and what a plan says of its lines.
use std::alloc::{AllocError, Global};
use std::test::Fail;
use vm_script::{ByteText, Plan, PlanAct, broken_rule, parse, parts};
use vm_types::Call;

// What is told of a script that is read: the first rule that it breaks, 0 where it breaks none, and how many entries its first line may make.
#[derive(Clone, Copy)]
struct Told {
    rule: u32,
    parts: Option<u32>,
}

fn told_of(plan: &Plan) -> Told {
    Told {
        rule: broken_rule(plan).unwrap_or(0),
        parts: match plan.lines().first() {
            Some(line) => Some(parts(line)),
            None => None,
        },
    }
}

fn make_told(alloc: Global, text: &str) -> Result<Option<Told>, AllocError> {
    match parse(alloc, text.as_bytes())? {
        Ok(plan) => Ok(Some(told_of(&plan))),
        Err(_) => Ok(None),
    }
}

// The first rule that a script breaks, 0 where it breaks none, and 99 where it isn't read.
fn rule_of(alloc: Global, text: &str) -> Result<u32, AllocError> {
    match make_told(alloc, text)? {
        Some(told) => Ok(told.rule),
        None => Ok(99),
    }
}

#[test]
fn set_up_rules_at_their_edges(rt: HostRuntime) -> Result<(), Fail> {
    let cases = [
        ("", 0),
        ("frames 5\ndisk 0 blank 2", 1),
        ("frames 6\ndisk 0 blank 2", 0),
        ("frames 5\nswap 0\ndisk 0 blank 2", 0),
        ("frames 4096", 0),
        ("frames 4097", 1),
        ("swap 65536", 0),
        ("swap 65537", 2),
        ("translations 7", 3),
        ("translations 8", 0),
        ("translations 65536", 0),
        ("translations 65537", 3),
        ("disk 8 blank 2", 4),
        ("disk 8 path p", 4),
        ("disk 0 blank 2\ndisk 0 path p", 4),
        ("disk 1 blank 1", 4),
        ("disk 1 blank 16385", 4),
        ("file a rw 0 1 -", 5),
        ("disk 7 blank 16384\nfile a rw 9 0 -", 5),
        ("disk 0 blank 3\nfile a rw 0 0 -", 6),
        ("disk 0 blank 3\nfile a rw 0 16383 -", 0),
        ("disk 0 blank 3\nfile a rw 0 16384 -", 6),
        ("disk 0 blank 2\ndisk 1 blank 3\njoin 0 stripe 1", 0),
        (
            "\
join 1 mirror 0
disk 0 blank 2
disk 1 blank 2
file a rw 1 1 -",
            0,
        ),
        (
            "\
disk 0 blank 2
disk 1 blank 2
file a rw 1 1 -
join 0 mirror 1",
            14,
        ),
        ("disk 0 blank 2\njoin 0 mirror 0", 14),
        ("disk 0 blank 2\njoin 0 mirror 1", 14),
        ("disk 1 blank 2\njoin 0 stripe 1", 14),
        (
            "\
disk 0 blank 2
disk 1 blank 2
disk 2 blank 2
join 0 stripe 1
join 2 stripe 0",
            14,
        ),
        (
            "\
disk 0 blank 2
disk 1 blank 2
disk 2 blank 2
join 0 stripe 1
join 2 mirror 1",
            14,
        ),
        (
            "frames 5\ndisk 0 blank 2\ndisk 1 blank 2\njoin 0 stripe 1",
            1,
        ),
    ];
    for (text, rule) in cases {
        assert_eq!(rt; rule_of(rt.alloc(), text)?, rule, "{text}");
    }
    Ok(())
}

// Puts so many of these lines behind a text.
fn push_lines(text: &mut String, line: &str, count: usize) -> Result<(), AllocError> {
    for _ in 0..count {
        text.push_str(line)?;
    }
    Ok(())
}

// The rule that is broken by these lines, each so many times, one behind the other.
fn rule_of_lines(alloc: Global, lines: &[(&str, usize)]) -> Result<u32, AllocError> {
    let mut text = String::new(alloc);
    for &(line, count) in lines {
        push_lines(&mut text, line, count)?;
    }
    rule_of(alloc, &text)
}

#[test]
fn processes_and_entries_are_counted(rt: HostRuntime) -> Result<(), Fail> {
    let alloc = rt.alloc();
    assert_eq!(rt; rule_of_lines(alloc, &[("process\nend\n", 64)])?, 0);
    assert_eq!(rt; rule_of_lines(alloc, &[("process\nend\n", 65)])?, 7);
    // Each read has 1024 parts, and each end is one entry.
    let most = [
        ("process\nwait\nend\nprocess\n", 1),
        ("read a 0 65536\n", 1023),
        ("wait\nload 0 1\n", 1022),
        ("end", 1),
    ];
    assert_eq!(rt; rule_of_lines(alloc, &most)?, 0);
    let more = [("process\n", 1), ("read a 0 65536\n", 1024), ("end", 1)];
    assert_eq!(rt; rule_of_lines(alloc, &more)?, 8);
    Ok(())
}

// How many entries the second line of a block may make.
fn parts_of(alloc: Global, text: &str) -> Result<u32, AllocError> {
    match make_told(alloc, text)? {
        Some(told) => Ok(told.parts.unwrap_or(99)),
        None => Ok(99),
    }
}

#[test]
fn reads_and_writes_count_their_parts(rt: HostRuntime) -> Result<(), Fail> {
    let cases = [
        ("process\nread a 0 64\nend", 1),
        ("process\nread a 63 2\nend", 2),
        ("process\nread a 4294967295 65536\nend", 1),
        ("process\nwrite a 60 0102030405\nend", 2),
        ("process\nwait\nend", 0),
        ("process\nload 0 1\nend", 1),
    ];
    for (text, count) in cases {
        assert_eq!(rt; parts_of(rt.alloc(), text)?, count, "{text}");
    }
    Ok(())
}

// The file number of the first line, where it names one.
fn first_file(plan: &Plan) -> u32 {
    match plan.lines().first() {
        Some(line) => match &line.act {
            PlanAct::Named { call, .. } => match call.call() {
                Call::Truncate { file, .. } => file,
                _ => 99,
            },
            _ => 99,
        },
        None => 99,
    }
}

// Names get their numbers.
fn names_get_numbers(alloc: Global, plan: &mut Plan) -> Result<(), Fail> {
    if plan.parents().len() != 2 || plan.lines().len() != 4 {
        return Err(Fail::new("not two processes with four lines"));
    }
    if first_file(plan) != 4_294_967_295 {
        return Err(Fail::new("a number without names"));
    }
    let names = [ByteText::new(alloc, b"a")?, ByteText::new(alloc, b"b")?];
    plan.set_files(&names);
    if first_file(plan) != 1 {
        return Err(Fail::new("not the number of b"));
    }
    Ok(())
}

#[test]
fn names_become_file_numbers(rt: HostRuntime) -> Result<(), Fail> {
    let text = "process\ntruncate b 5\nfork\nend\nend";
    match parse(rt.alloc(), text.as_bytes())? {
        Ok(mut plan) => names_get_numbers(rt.alloc(), &mut plan),
        Err(_) => Err(Fail::new("not read")),
    }
}
