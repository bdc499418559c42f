// The texts of the statuses and the lines that a command prints.
ghost use Rattle.std.specs.Prelude.{◌≡◌, IfOk, string_bytes};
ghost use Rattle.command_outcome.specs.Texts.{out_of_calls_text, out_of_frames_text, bad_input_text, bad_code_text};
ghost use Rattle.command_outcome.specs.Texts.{bad_trace_text, bad_task_text, sound_rule_name, unsound_text, trap_name};
ghost use Rattle.command_outcome.specs.Texts.{trap_text, too_small_text, cells_text, stack_text, bound_text};

use code_verify::SoundRule;
use fip_base::plain::TrapKind;
use std::alloc::{AllocError, Global};

/// The line of status 3.
pub fn trap(alloc: Global, kind: TrapKind, line: usize, col: usize) -> Result<String, AllocError>
    ensures text { IfOk result (λ s. string_bytes s ≡ trap_text kind line col) }
{
    let name = trap_name(kind);
    format!(in alloc; "trap {name} at {line}:{col}\n")
}

// The name of a trap.
fn trap_name(kind: TrapKind) -> &'static str
    ensures name { result.now ≡ trap_name kind }
{
    match kind {
        TrapKind::Overflow => "Overflow",
        TrapKind::DivideByZero => "DivideByZero",
    }
}

/// The line of status 7.
pub fn out_of_frames(alloc: Global, frames: usize) -> Result<String, AllocError>
    ensures text { IfOk result (λ s. string_bytes s ≡ out_of_frames_text frames) }
{
    format!(in alloc; "out of frames: {frames}\n")
}

/// The line of status 8 where bytes are no code.
pub fn bad_code(alloc: Global, at: usize) -> Result<String, AllocError>
    ensures text { IfOk result (λ s. string_bytes s ≡ bad_code_text at) }
{
    format!(in alloc; "bad code at {at}\n")
}

/// The line of status 8 where bytes are no trace.
pub fn bad_trace(alloc: Global, at: usize) -> Result<String, AllocError>
    ensures text { IfOk result (λ s. string_bytes s ≡ bad_trace_text at) }
{
    format!(in alloc; "bad trace at {at}\n")
}

/// The line of status 5 where a line is no task.
pub fn bad_task(alloc: Global, line: usize) -> Result<String, AllocError>
    ensures text { IfOk result (λ s. string_bytes s ≡ bad_task_text line) }
{
    format!(in alloc; "bad task {line}\n")
}

// The name of a rule of sound code.
fn sound_rule_name(rule: SoundRule) -> &'static str
    ensures name { result.now ≡ sound_rule_name rule }
{
    match rule {
        SoundRule::S0 => "S0",
        SoundRule::S1 => "S1",
        SoundRule::S2 => "S2",
        SoundRule::S3 => "S3",
        SoundRule::S4 => "S4",
        SoundRule::S5 => "S5",
        SoundRule::S6 => "S6",
        SoundRule::S7 => "S7",
        SoundRule::S8 => "S8",
        SoundRule::S9 => "S9",
    }
}

/// The line of status 8 where a code isn't sound.
pub fn unsound(
    alloc: Global,
    function: usize,
    at: usize,
    rule: SoundRule,
) -> Result<String, AllocError>
    ensures text { IfOk result (λ s. string_bytes s ≡ unsound_text function at (sound_rule_name rule)) }
{
    let rule = sound_rule_name(rule);
    format!(in alloc; "unsound function {function} instruction {at} rule {rule}\n")
}

/// The line of status 4.
pub fn out_of_calls(alloc: Global, calls: u64) -> Result<String, AllocError>
    ensures text { IfOk result (λ s. string_bytes s ≡ out_of_calls_text calls) }
{
    format!(in alloc; "out of calls: {calls}\n")
}

/// The line of status 5.
pub fn bad_input(alloc: Global, at: usize) -> Result<String, AllocError>
    ensures text { IfOk result (λ s. string_bytes s ≡ bad_input_text at) }
{
    format!(in alloc; "bad input at {at}\n")
}

/// The line of status 6.
pub fn too_small(alloc: Global, needed: usize, given: usize) -> Result<String, AllocError>
    ensures text { IfOk result (λ s. string_bytes s ≡ too_small_text needed given) }
{
    format!(in alloc; "store too small: {needed} needed, {given} given\n")
}

/// The gauge's line of a size.
pub fn cells_line(alloc: Global, size: usize, low: u64, high: u64) -> Result<String, AllocError>
    ensures text { IfOk result (λ s. string_bytes s ≡ cells_text size low high) }
{
    format!(in alloc; "cells of {size}: {low} to {high}\n")
}

/// The gauge's line of the stack.
pub fn stack_line(alloc: Global, frames: usize, words: usize) -> Result<String, AllocError>
    ensures text { IfOk result (λ s. string_bytes s ≡ stack_text frames words) }
{
    format!(in alloc; "stack: {frames} frames, {words} words\n")
}

/// The gauge's line of the bound.
pub fn bound_line(alloc: Global, frames: usize, words: usize) -> Result<String, AllocError>
    ensures text { IfOk result (λ s. string_bytes s ≡ bound_text frames words) }
{
    format!(in alloc; "bound: {frames} frames, {words} words\n")
}
