//! The generated scripts are those that their description says, line by line.
use std::alloc::{AllocError, Global};
use std::test::Fail;
use vm_script::{Plan, PlanAct, broken_rule, generate, parse};

// The text of the generated script of a number, by its description.
fn text_of_number(alloc: Global, n: u32) -> Result<String, AllocError> {
    let mut text = String::new(alloc);
    text.push_str(
        "\
frames 24
swap 512
translations 64
disk 0 blank 16
file f rw 0 8 -
",
    )?;
    for i in 0_u32..8 {
        text.push_str("process\nmap 0x100000 131072 rw private zero 0\n")?;
        text.push_str("map 0x400000 32768 rw shared f 0\n")?;
        for k in 0_u32..1000 {
            let addr = 0x100000 + 4096 * ((n % 32 + 5 * k) % 32) + 4 * (k / 32);
            text.push_str(&format!(in alloc; "store {addr} 4 {}\n", k + i)?)?;
        }
        text.push_str("fork\n")?;
        text.push_str(&lines_of_ends(alloc, "store", " 1")?)?;
        text.push_str(&lines_of_ends(alloc, "load", "")?)?;
        text.push_str("end\n")?;
        for k in 0_u32..1000 {
            let addr = 0x100000 + 4096 * ((n % 32 + 5 * k) % 32) + 4 * (k / 32);
            text.push_str(&format!(in alloc; "load {addr} 4\n")?)?;
        }
        text.push_str(&lines_of_ends(alloc, "load", "")?)?;
        text.push_str(&format!(in alloc; "write f {} 00\n", 4096 * i + 4095)?)?;
        let addr = 0x400000 + 4096 * i;
        text.push_str(&format!(in alloc; "store {addr} 4 {n}\nload {addr} 4\nend\n")?)?;
    }
    Ok(text)
}

// A line for the last word of each of 32 pages.
fn lines_of_ends(alloc: Global, word: &str, more: &str) -> Result<String, AllocError> {
    let mut text = String::new(alloc);
    for j in 0_u32..32 {
        let addr = 0x100000 + 4096 * j + 4092;
        text.push_str(&format!(in alloc; "{word} {addr} 4{more}\n")?)?;
    }
    Ok(text)
}

fn same_act(a: &PlanAct, b: &PlanAct) -> bool {
    match (a, b) {
        (PlanAct::Call(a), PlanAct::Call(b)) => a.call() == b.call(),
        (
            PlanAct::Named { name, call },
            PlanAct::Named {
                name: other,
                call: other_call,
            },
        ) => name.bytes() == other.bytes() && call.call() == other_call.call(),
        (
            PlanAct::Write {
                name,
                file,
                offset,
                bytes,
            },
            PlanAct::Write {
                name: other,
                file: other_file,
                offset: other_offset,
                bytes: other_bytes,
            },
        ) => {
            name.bytes() == other.bytes()
                && file == other_file
                && offset == other_offset
                && bytes.bytes() == other_bytes.bytes()
        }
        (PlanAct::Wait, PlanAct::Wait) => true,
        _ => false,
    }
}

// The plans have the same set-up, processes and lines.
fn same_plans(a: &Plan, b: &Plan) -> bool {
    a.setup().len() == b.setup().len()
        && a.parents() == b.parents()
        && a.lines().len() == b.lines().len()
        && a.lines().iter().zip(b.lines()).all(|(a, b)| {
            (a.line, a.process) == (b.line, b.process) && same_act(&a.act, &b.act)
        })
}

// Whether the generated script of this number breaks no rule, and is the one that its text is read as.
fn is_its_text(alloc: Global, n: u32) -> Result<bool, AllocError> {
    let plan = generate(alloc, n)?;
    let text = text_of_number(alloc, n)?;
    match parse(alloc, text.as_bytes())? {
        Ok(read) => Ok(broken_rule(&plan) == None && same_plans(&plan, &read)),
        Err(_) => Ok(false),
    }
}

#[test]
fn the_generated_script_is_its_text(rt: HostRuntime) -> Result<(), Fail> {
    for n in [0, 3] {
        assert!(rt; is_its_text(rt.alloc(), n)?, "{n}");
    }
    Ok(())
}
