// Verifying a code.
ghost use Rattle.std.specs.Prelude.{◌≡◌, ◌<◌, ◌==◌, not, ℕ, [], length, map, slice_get, Some, Err, IfOk, OnOk, IsTrue};
ghost use Rattle.std.specs.Prelude.{if◌then◌else◌};
ghost use Rattle.call_groups.specs.CallGraph.{group_number};
ghost use Rattle.code_rules.specs.declared.rule.SoundRule.{SoundRule};
ghost use Rattle.code_rules.specs.declared.rule.SoundRule.TheVariants.{S8, S9};
ghost use Rattle.code_rules.specs.Breaks.{IsLeast, IsSound};
ghost use Rattle.cell_code.specs.Plain.{plain};
ghost use Rattle.code_rules.specs.Codes.{is_fip};
ghost use Rattle.code_rules.specs.Tables.{AreSoundTables};
ghost use Rattle.code_rows.specs.Noting.{broken, noted_unless, Answers};
ghost use Rattle.code_verify.specs.Surveying.{IsFoundOf, OwnBelow, own_noted, row_at, frame_of};
ghost use Rattle.code_verify.specs.Survey.{IsSurvey, IsWalked};
ghost use Rattle.code_verify.specs.Releasing.{AreShort};
ghost use Rattle.code_verify.specs.Checked.{HaveStacks};
ghost use Rattle.code_verify.specs.declared.accept.VerifyError.TheVariants.{Unsound};

use crate::verified::Verified;
use crate::walk::{DropType, Found, Waiting, walk};
use call_groups::{Call, Partition, partition_of, stacks};
use cell_code::{Code, Function};
use code_rows::kinds::Table;
use code_rows::{Least, Violation, is_fip, is_formed};
use code_rules::SoundRule;
use code_tables::are_sound_tables;
use fip_base::plain::{NoMemory, Stack};
use fip_language::limits::FRAME_WORDS;
use std::alloc::Global;
use thiserror::Error;

/// Why a code isn't accepted.
#[derive(Clone, Copy, Debug, PartialEq, Eq, Error)]
pub enum VerifyError {
    /// It breaks a rule: the least violation by function, instruction and rule.
    #[error("unsound function {function} instruction {at} rule {rule}")]
    Unsound {
        function: usize,
        at: usize,
        rule: SoundRule,
    },
    /// No memory was left.
    #[error("no memory is left")]
    NoMemory,
}

/// Accepts a code exactly where it is sound. It takes memory in proportion to the code, and no stack. It takes time in
/// proportion to the code but for instructions that take a cell apart, which look at each register that is borrowed
/// from it but those that the heir with the most of them keeps, and for jumps, which look at each register that has
/// changed since their label was met, or at each of which its map says more than Gone, and at all of its constructors.
/// Unsound: it isn't, and this is the least violation by function, instruction and rule. NoMemory: no memory is left,
/// or a function has more than 4,294,967,295 instructions.
pub fn verify(alloc: Global, code: Code) -> Result<Verified, VerifyError>
    ensures same { IfOk result (λ v. v.code ≡ code) }
    ensures sound { IfOk result (λ v. IsSound (plain code)) }
    ensures least { (n i : ℕ) (rule : SoundRule) → result ≡ Err (Unsound n i rule) → IsLeast (plain code) n i rule }
{
    match examine(alloc, &code) {
        Ok(survey) => match stacks_of(alloc, &code, &survey) {
            Ok(stacks) => match settle(code, stacks, survey.walked) {
                Ok(verified) => Ok(verified),
                Err(_) => Err(VerifyError::NoMemory),
            },
            Err(_) => Err(VerifyError::NoMemory),
        },
        Err(error) => Err(error),
    }
}

/// Accepts a code that is known to be sound, as that of a lowered program is, with what runs of its functions hold of the
/// stack. What it gives is what `verify` gives; but neither the groups of calls nor the stack numbers are computed.
/// NoMemory: no memory is left, or a function has more than 4,294,967,295 instructions.
pub fn verify_sound(
    alloc: Global,
    code: Code,
    stacks: Vec<Option<Stack>>,
) -> Result<Verified, NoMemory>
    requires sound { IsSound (plain code) }
    requires stacks { HaveStacks (plain code) stacks.items }
    ensures same { IfOk result (λ v. v.code ≡ code) }
{
    has_sound_tables(alloc, &code)?;
    let walked = walked_of(alloc, &code)?;
    settle(code, stacks, walked)
}

// Sound code has sound tables.
fn has_sound_tables(alloc: Global, code: &Code) -> Result<(), NoMemory>
    requires sound { IsSound (plain code.now) }
    ensures tables { OnOk result (AreSoundTables (plain code.now)) }
{
    match are_sound_tables(alloc, code) {
        Ok(sound) => { if sound { Ok(()) } else { unreachable!() } }
        Err(error) => Err(error),
    }
}

// What the functions of a code were found to do, one after another: the least violation but S8; the calls that can be
// reached, those outside tail position, and the types at the Drops.
#[derive(Drop)]
pub struct Walked {
    least: Least,
    calls: Vec<Vec<Call>>,
    waiting: Vec<Vec<Waiting>>,
    drops: Vec<Vec<DropType>>,
}

// The same with the groups that the calls make.
#[derive(Drop)]
pub struct Survey {
    walked: Walked,
    groups: Partition,
}

// A sound code is accepted, where its instructions can be numbered.
fn settle(code: Code, stacks: Vec<Option<Stack>>, walked: Walked) -> Result<Verified, NoMemory>
    requires walked { IsWalked (plain code) walked }
    requires tables { AreSoundTables (plain code) }
    requires sound { IsSound (plain code) }
    requires stacks { HaveStacks (plain code) stacks.items }
    ensures same { IfOk result (λ v. v.code ≡ code) }
{
    if !are_short(&code.functions) {
        return Err(NoMemory);
    }
    Ok(Verified::new(code, stacks, walked.drops))
}

// Whether no function has so many instructions that their numbers don't fit in 32 bits.
fn are_short(functions: &[Function]) -> bool
    ensures { IsTrue result → AreShort functions.now }
{
    for function in functions {
        if function.instrs.len() > u32::MAX as usize {
            return false;
        }
    }
    true
}

// What is found of a code that is sound; else the least violation.
fn examine(alloc: Global, code: &Code) -> Result<Survey, VerifyError>
    ensures survey { IfOk result (λ s. IsSurvey (plain code.now) s) }
    ensures tables { IfOk result (λ s. AreSoundTables (plain code.now)) }
    ensures sound { IfOk result (λ s. IsSound (plain code.now)) }
    ensures least { (n i : ℕ) (rule : SoundRule) → result ≡ Err (Unsound n i rule) → IsLeast (plain code.now) n i rule }
{
    match are_sound_tables(alloc, code) {
        Ok(sound) => {
            if sound {
                examine_functions(alloc, code)
            } else {
                Err(VerifyError::Unsound {
                    function: 0,
                    at: 0,
                    rule: SoundRule::S0,
                })
            }
        }
        Err(_) => Err(VerifyError::NoMemory),
    }
}

// The same where the tables are sound.
fn examine_functions(alloc: Global, code: &Code) -> Result<Survey, VerifyError>
    requires tables { AreSoundTables (plain code.now) }
    ensures survey { IfOk result (λ s. IsSurvey (plain code.now) s) }
    ensures tables { IfOk result (λ s. AreSoundTables (plain code.now)) }
    ensures sound { IfOk result (λ s. IsSound (plain code.now)) }
    ensures least { (n i : ℕ) (rule : SoundRule) → result ≡ Err (Unsound n i rule) → IsLeast (plain code.now) n i rule }
{
    match survey_of(alloc, code) {
        Ok(survey) => match least_of(code, &survey).first() {
            Some(violation) => Err(VerifyError::Unsound {
                function: violation.function,
                at: violation.at,
                rule: violation.rule,
            }),
            None => Ok(survey),
        },
        Err(_) => Err(VerifyError::NoMemory),
    }
}

// What all functions are found to do, and the groups that their calls make.
fn survey_of(alloc: Global, code: &Code) -> Result<Survey, NoMemory>
    ensures { IfOk result (λ s. IsSurvey (plain code.now) s) }
{
    let walked = walked_of(alloc, code)?;
    let groups = partition_of(alloc, &walked.calls)?;
    Ok(Survey { walked, groups })
}

// What all functions are found to do.
fn walked_of(alloc: Global, code: &Code) -> Result<Walked, NoMemory>
    ensures { IfOk result (λ w. IsWalked (plain code.now) w) }
{
    let table = Table::new(alloc, &code.types)?;
    walked_over(alloc, code, &table)
}

fn walked_over<'a>(alloc: Global, code: &'a Code, table: &'a Table<'a>) -> Result<Walked, NoMemory>
    requires types { table.now ≡ code.now.types }
    ensures { IfOk result (λ w. IsWalked (plain code.now) w) }
{
    let mut least = Least::new();
    let mut calls = Vec::new(alloc);
    let mut waiting = Vec::new(alloc);
    let mut drops = Vec::new(alloc);
    for number in 0..code.functions.len() {
        let found = find(alloc, code, table, function_at(code, number), number)?;
        least.note_if_some(found.least.first());
        calls.push(found.calls)?;
        waiting.push(found.waiting)?;
        drops.push(found.drops)?;
    }
    Ok(Walked {
        least,
        calls,
        waiting,
        drops,
    })
}

fn function_at(code: &Code, number: usize) -> &Function
    requires within { number < length code.now.functions.items }
    ensures is { slice_get code.now.functions.items number ≡ Some result.now }
{
    &code.functions[number]
}

// What a function is found to do: S9, and without it the walk over its instructions.
fn find<'a>(
    alloc: Global,
    code: &'a Code,
    table: &'a Table<'a>,
    function: &'a Function,
    number: usize,
) -> Result<Found, NoMemory>
    requires types { table.now ≡ code.now.types }
    requires there { slice_get code.now.functions.items number ≡ Some function.now }
    ensures { IfOk result (λ r. IsFoundOf (plain code.now) number r) }
{
    if is_formed(table, function) {
        return walk(alloc, code, table, function, number);
    }
    Ok(unformed(alloc, number))
}

// A function breaks S9, and nothing else is found of it.
fn unformed(alloc: Global, number: usize) -> Found
    ensures least { result.least.first ≡ Some (broken number 0 S9) }
    ensures calls { result.calls.items ≡ [] }
    ensures waiting { result.waiting.items ≡ [] }
    ensures drops { result.drops.items ≡ [] }
{
    let mut least = Least::new();
    least.note(Violation {
        function: number,
        at: 0,
        rule: SoundRule::S9,
    });
    Found {
        least,
        calls: Vec::new(alloc),
        waiting: Vec::new(alloc),
        drops: Vec::new(alloc),
    }
}

// The least violation of all functions, S8 among them.
fn least_of(code: &Code, survey: &Survey) -> Least
    requires survey { IsSurvey (plain code.now) survey.now }
    ensures { let all = length (plain code.now).functions in Answers (OwnBelow (plain code.now) all all) result.first }
{
    let mut least = survey.walked.least;
    for number in 0..code.functions.len() {
        note_own(function_at(code, number), number, survey, &mut least);
    }
    least
}

// Notes the calls of its own group outside tail position of a function, where it is fip.
fn note_own(function: &Function, number: usize, survey: &Survey, least: &mut Least)
    ensures { least.new.first ≡ (if is_fip function.now.kind then
        own_noted survey.now.groups number least.old.first (row_at survey.now.walked.waiting.items number)
        else least.old.first) }
{
    if is_fip(function) {
        if let Some(calls) = survey.walked.waiting.get(number) {
            note_calls(number, calls, &survey.groups, least);
        }
    }
}

// Notes those of these calls that are of the own group.
fn note_calls(number: usize, calls: &[Waiting], groups: &Partition, least: &mut Least)
    ensures { least.new.first ≡ own_noted groups.now number least.old.first calls.now }
{
    for call in calls {
        note_call(number, *call, groups, least);
    }
}

fn note_call(number: usize, call: Waiting, groups: &Partition, least: &mut Least)
    ensures { least.new.first ≡ noted_unless number call.at
        (not (group_number groups.now call.callee == group_number groups.now number)) S8 least.old.first }
{
    if groups.group_of(call.callee) == groups.group_of(number) {
        least.note(Violation {
            function: number,
            at: call.at,
            rule: SoundRule::S8,
        });
    }
}

// What runs of a sound code's functions hold of the stack.
fn stacks_of(alloc: Global, code: &Code, survey: &Survey) -> Result<Vec<Option<Stack>>, NoMemory>
    requires survey { IsSurvey (plain code.now) survey.now }
    requires tables { AreSoundTables (plain code.now) }
    requires sound { IsSound (plain code.now) }
    ensures { IfOk result (λ v. HaveStacks (plain code.now) v.items) }
{
    let frames = frames_of(alloc, code)?;
    stacks(alloc, &survey.walked.calls, &survey.groups, &frames)
}

// The words of the frames of the functions that are fip.
fn frames_of(alloc: Global, code: &Code) -> Result<Vec<Option<usize>>, NoMemory>
    ensures { IfOk result (λ v. v.items ≡ map frame_of code.now.functions.items) }
{
    let mut frames = Vec::new(alloc);
    for function in &code.functions {
        frames.push(frame_of(function))?;
    }
    Ok(frames)
}

fn frame_of(function: &Function) -> Option<usize>
    ensures { result ≡ frame_of function.now }
{
    if is_fip(function) {
        Some(function.registers as usize + FRAME_WORDS)
    } else {
        None
    }
}
