//! The set-up rules that look at the script alone.
ghost use Rattle.std.specs.Prelude.{ℕ, ◌≡◌, ◌<◌, ◌≤◌, ◌==◌, ◌*◌, not, false, count_by, slice_index_or, nat_lt};
ghost use Rattle.std.specs.List.{list_any};
ghost use Rattle.vm_script.specs.Rules as rules;
ghost use Rattle.vm_script.specs.GivenDisks.{lacks_given_disk};

use crate::counts::needs_too_many;
use crate::plan::{Plan, SetupAct, SetupLine};

/// What the set-up lines give: page frames, swap slots and translations.
#[derive(Clone, Copy, Debug, PartialEq, Eq)]
pub struct Amounts {
    pub frames: u32,
    pub slots: u32,
    pub translations: u32,
}

fn with_amount(amounts: Amounts, line: &SetupLine) -> Amounts
    ensures { result ≡ rules.with_amount amounts line.now }
{
    let Amounts {
        frames,
        slots,
        translations,
    } = amounts;
    match line.act {
        SetupAct::Frames(frames) => Amounts {
            frames,
            slots,
            translations,
        },
        SetupAct::Swap(slots) => Amounts {
            frames,
            slots,
            translations,
        },
        SetupAct::Translations(translations) => Amounts {
            frames,
            slots,
            translations,
        },
        _ => amounts,
    }
}

/// What the set-up lines give: 64 frames, 64 slots and 256 translations where no line says.
pub fn amounts_of(setup: &[SetupLine]) -> Amounts
    ensures { result ≡ rules.amounts_of setup.now }
{
    let mut amounts = Amounts {
        frames: 64,
        slots: 64,
        translations: 256,
    };
    let mut left = setup;
    while let [line, rest @ ..] = left {
        amounts = with_amount(amounts, line);
        left = rest;
    }
    amounts
}

fn gives_a_disk(act: &SetupAct) -> bool
    ensures { result ≡ rules.gives_a_disk act.now }
{
    matches!(act, SetupAct::Blank { .. } | SetupAct::Path { .. })
}

fn gives_disk(disk: u32, act: &SetupAct) -> bool
    ensures { result ≡ rules.gives_disk disk act.now }
{
    match act {
        SetupAct::Blank { disk: given, .. } => *given == disk,
        SetupAct::Path { disk: given, .. } => *given == disk,
        _ => false,
    }
}

fn give_disk(setup: &[SetupLine], disk: u32) -> bool
    ensures { result ≡ list_any (λ l. rules.gives_disk disk l.act) setup.now }
{
    setup.iter().any(|l| gives_disk(disk, &l.act))
}

fn disk_lines(setup: &[SetupLine]) -> usize
    ensures { result ≡ count_by (λ l. rules.gives_a_disk l.act) setup.now }
{
    setup.iter().filter(|l| gives_a_disk(&l.act)).count()
}

fn is_right_disk(act: &SetupAct) -> bool
    ensures { result ≡ rules.is_right_disk act.now }
{
    match act {
        SetupAct::Blank { disk, blocks } => *disk <= 7 && 2 <= *blocks && *blocks <= 16_384,
        SetupAct::Path { disk, .. } => *disk <= 7,
        _ => true,
    }
}

fn gives_again(act: &SetupAct, others: &[SetupLine]) -> bool
    ensures { result ≡ rules.gives_again act.now others.now }
{
    match act {
        SetupAct::Blank { disk, .. } => give_disk(others, *disk),
        SetupAct::Path { disk, .. } => give_disk(others, *disk),
        _ => false,
    }
}

// With right disks so far, at most nine lines are compared with those behind them.
fn has_wrong_disk(setup: &[SetupLine]) -> bool
    ensures { result ≡ rules.has_wrong_disk setup.now }
{
    let mut left = setup;
    while let [line, rest @ ..] = left {
        if !is_right_disk(&line.act) || gives_again(&line.act, rest) {
            return true;
        }
        left = rest;
    }
    false
}

// Which of the disks 0 to 7 are given.
fn given_disks(setup: &[SetupLine]) -> [bool; 8]
    ensures { (d : ℕ) → d < 8 →
        slice_index_or result d false ≡ list_any (λ l. rules.gives_disk d l.act) setup.now }
{
    [
        give_disk(setup, 0),
        give_disk(setup, 1),
        give_disk(setup, 2),
        give_disk(setup, 3),
        give_disk(setup, 4),
        give_disk(setup, 5),
        give_disk(setup, 6),
        give_disk(setup, 7),
    ]
}

fn lacks_given_disk(given: &[bool; 8], act: &SetupAct) -> bool
    ensures { result ≡ lacks_given_disk given.now act.now }
{
    match act {
        SetupAct::File { disk, .. } => *disk > 7 || !given[*disk as usize],
        _ => false,
    }
}

fn lack_disks(given: &[bool; 8], setup: &[SetupLine]) -> bool
    ensures { result ≡ list_any (λ l. lacks_given_disk given.now l.act) setup.now }
{
    setup.iter().any(|l| lacks_given_disk(given, &l.act))
}

fn lacks_a_disk(setup: &[SetupLine]) -> bool
    requires { rules.has_wrong_disk setup.now ≡ false }
    ensures { result ≡ list_any (λ l. rules.lacks_disk setup.now l.act) setup.now }
{
    let given = given_disks(setup);
    lack_disks(&given, setup)
}

fn is_wrong_file(act: &SetupAct) -> bool
    ensures { result ≡ rules.is_wrong_file act.now }
{
    match act {
        SetupAct::File { pages, bytes, .. } => {
            *pages < 1 || 16_383 < *pages || *pages as usize * 4096 < bytes.bytes().len()
        }
        _ => false,
    }
}

fn has_wrong_file(setup: &[SetupLine]) -> bool
    ensures { result ≡ list_any (λ l. rules.is_wrong_file l.act) setup.now }
{
    setup.iter().any(|l| is_wrong_file(&l.act))
}

fn joins_disk(disk: u32, act: &SetupAct) -> bool
    ensures { result ≡ rules.joins_disk disk act.now }
{
    match act {
        SetupAct::Join {
            disk: first,
            other,
            ..
        } => *first == disk || *other == disk,
        _ => false,
    }
}

fn lays_file_on(disk: u32, act: &SetupAct) -> bool
    ensures { result ≡ rules.lays_file_on disk act.now }
{
    match act {
        SetupAct::File { disk: on, .. } => *on == disk,
        _ => false,
    }
}

fn can_be_joined(setup: &[SetupLine], disk: u32) -> bool
    ensures { result ≡ rules.can_be_joined setup.now disk }
{
    let joins = setup.iter().filter(|l| joins_disk(disk, &l.act)).count();
    give_disk(setup, disk) && joins <= 1
}

fn has_file_on(setup: &[SetupLine], disk: u32) -> bool
    ensures { result ≡ list_any (λ l. rules.lays_file_on disk l.act) setup.now }
{
    setup.iter().any(|l| lays_file_on(disk, &l.act))
}

fn is_wrong_first(setup: &[SetupLine], disk: u32, other: u32) -> bool
    ensures { result ≡ rules.is_wrong_first setup.now disk other }
{
    disk == other || !can_be_joined(setup, disk)
}

fn is_wrong_second(setup: &[SetupLine], other: u32) -> bool
    ensures { result ≡ rules.is_wrong_second setup.now other }
{
    !can_be_joined(setup, other) || has_file_on(setup, other)
}

fn is_wrong_pair(setup: &[SetupLine], disk: u32, other: u32) -> bool
    ensures { result ≡ rules.is_wrong_pair setup.now disk other }
{
    is_wrong_first(setup, disk, other) || is_wrong_second(setup, other)
}

fn is_wrong_join(setup: &[SetupLine], act: &SetupAct) -> bool
    ensures { result ≡ rules.is_wrong_join setup.now act.now }
{
    match act {
        SetupAct::Join { disk, other, .. } => is_wrong_pair(setup, *disk, *other),
        _ => false,
    }
}

// Where disks are given once each, at most four joins are right, and the search ends at the first that isn't.
fn has_wrong_join(setup: &[SetupLine]) -> bool
    ensures { result ≡ list_any (λ l. rules.is_wrong_join setup.now l.act) setup.now }
{
    setup.iter().any(|l| is_wrong_join(setup, &l.act))
}

fn broken_join(setup: &[SetupLine]) -> Option<u32>
    ensures { result ≡ rules.broken_join setup.now }
{
    if has_wrong_join(setup) {
        return Some(14);
    }
    None
}

fn has_wrong_frames(setup: &[SetupLine], amounts: Amounts) -> bool
    requires { amounts ≡ rules.amounts_of setup.now }
    ensures { result ≡ rules.has_wrong_frames setup.now }
{
    let swap = if amounts.slots == 0 { 0 } else { 1 };
    let frames = amounts.frames as usize;
    frames > 4096 || disk_lines(setup) > 4096 || frames < disk_lines(setup) + swap + 4
}

/// The first of the set-up rules 1 to 8 and 14, which look at the script alone, that the plan breaks.
pub fn broken_rule(plan: &Plan) -> Option<u32>
    ensures { result ≡ rules.broken_rule plan.now }
{
    let setup = plan.setup();
    let amounts = amounts_of(setup);
    if has_wrong_frames(setup, amounts) {
        return Some(1);
    }
    if amounts.slots > 65_536 {
        return Some(2);
    }
    if amounts.translations < 8 || amounts.translations > 65_536 {
        return Some(3);
    }
    if has_wrong_disk(setup) {
        return Some(4);
    }
    if lacks_a_disk(setup) {
        return Some(5);
    }
    if has_wrong_file(setup) {
        return Some(6);
    }
    if plan.parents().len() > 64 {
        return Some(7);
    }
    if needs_too_many(plan.lines()) {
        return Some(8);
    }
    broken_join(setup)
}
