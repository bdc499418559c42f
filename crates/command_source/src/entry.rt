// The function that is run or evaluated.
ghost use Rattle.std.specs.Prelude.{◌≡◌, ◌<◌, ◌≤◌, ℕ, List, IfOk, IfErr, IfSome, OnOk, MatchOption, None, Some, false};
ghost use Rattle.std.specs.Prelude.{length};
ghost use Rattle.std.specs.Prelude.{◌⊎◌, true, map, slice_get, bytes_eq, if◌then◌else◌};
ghost use Rattle.fip_language.specs.declared.rule.Rule.TheVariants.{E70};
ghost use Rattle.cell_code.specs.declared.code.Function.{Function as a_function};
ghost use Rattle.cell_code.specs.Plain.{plain_function, plain};
ghost use Rattle.code_verify.specs.code_rules.Breaks.{IsSound};
ghost use Rattle.command_outcome.specs.declared.failure.Failure.TheVariants.{NoMemory};
ghost use Rattle.command_source.specs.Codes.{HasFunction, IsSpelt, KeepsFromRun, has_named, names_one};
ghost use Rattle.command_outcome.specs.Stages.{IsOfSource};
ghost use Rattle.fip_trees.specs.TreeView as V;
ghost use Rattle.fip_trees.specs.declared.program.Instance.{Instance as an_instance};
ghost use Rattle.program_front.specs.source_report.Report.{IsAccepted};
ghost use Rattle.program_front.specs.tail_groups.Members.{AreMembers};
ghost use Rattle.command_source.specs.Entries.{IsFunctionOf, IsNamed, IsRootedIn};
ghost use Rattle.command_source.specs.ProgramCode.{IsLoweredFrom, HasFile, IsEntryOf};
ghost use Rattle.command_source.specs.FunctionNumbers.{functions_of, function_if, root_function, MissesFunction};
ghost use Rattle.command_source.specs.Roots as R;
ghost use Rattle.command_source.specs.Wanted.{Root, Compiled, MissesRoot, IsRoot, IsReady};
ghost use Rattle.command_source.specs.Wanted.{IsRefusedBy, KeepsFrom, of_entry};

use crate::phases::{code_of, lawful, verified_front};
use cell_code::Function;
use code_verify::Verified;
use command_outcome::Failure;
use fip_base::plain::Detail;
use fip_base::refusal::{Refusal, Rule};
use fip_trees::program::{Instance, Typed};
use program_front::Lowered;
use std::alloc::Global;
use std::marker::Model;

/// A verified code, and which of its functions is run.
#[derive(Drop)]
pub struct Ready {
    verified: Verified,
    entry: usize,
}

impl Model for Ready {
    ghost use Rattle.command_source.specs.Entries.{Chosen, CanBeChosen};

    ghost Value = { Chosen };

    ghost view = { λ r. record { checked = r.verified; entry = r.entry } };

    ghost invariant = { λ r. CanBeChosen r.verified.code r.entry };
}

impl Ready {
    /// The code.
    pub fn verified(&self) -> &Verified
        ensures same { result.now ≡ self.now.checked }
        ensures spelt { IsSpelt (plain result.now.code) }
    {
        &self.verified
    }

    /// The number of the function that is run.
    pub fn entry(&self) -> usize
        ensures same { result ≡ self.now.entry }
        ensures within { result < length self.now.checked.code.functions.items }
    {
        self.entry
    }

    /// The function that is run.
    pub fn function(&self) -> &Function
        ensures same { slice_get self.now.checked.code.functions.items self.now.entry ≡ Some result.now }
    {
        &self.verified.code().functions[self.entry]
    }

    /// The code, for who keeps it.
    pub fn into_verified(self) -> Verified
        ensures same { result ≡ self.checked }
    {
        self.verified
    }
}

/// A program without violations, and which of its instances is evaluated.
#[derive(Drop)]
pub struct Evaluable {
    typed: Typed,
    entry: usize,
}

impl Model for Evaluable {
    ghost use Rattle.std.specs.Prelude.{◌<◌, length};
    ghost use Rattle.std.specs.Coded.{codes};
    ghost use Rattle.fip_trees.specs.contracts.program.Block as block;
    ghost use Rattle.command_source.specs.Entries.{Rooted};

    ghost Value = { Rooted };

    ghost coded = { Prim.hlevel (codes, block.the_row.coded) };

    ghost view = { λ e. record { typed = e.typed; entry = e.entry } };

    ghost invariant = { λ e. e.entry < length e.typed.program.instances.items };
}

impl Evaluable {
    /// The program.
    pub fn typed(&self) -> &Typed
        ensures same { result.now ≡ self.now.typed }
    {
        &self.typed
    }

    /// The number of the instance that is evaluated.
    pub fn entry(&self) -> usize
        ensures same { result ≡ self.now.entry }
        ensures within { result < length self.now.typed.program.instances.items }
    {
        self.entry
    }

    /// The instance that is evaluated.
    pub fn instance(&self) -> &Instance
        ensures same { slice_get self.now.typed.program.instances.items self.now.entry ≡ Some result.now }
    {
        &self.typed.program.instances[self.entry]
    }
}

// A rule on the entry that is broken; it names the entry.
fn entry_refused(alloc: Global, rule: Rule, entry: &str) -> Failure
    ensures names { IsRefusedBy (λ r. r ≡ of_entry rule entry.now) result }
    ensures stage { IsOfSource result }
{
    match Vec::from_slice(alloc, entry.as_bytes()) {
        Ok(name) => Failure::Refused(Refusal {
            rule,
            place: None,
            size: 0,
            detail: Detail::new(name),
        }),
        Err(_) => Failure::NoMemory,
    }
}

// Whether an instance is a root of this name.
fn is_root(instance: &Instance, name: &[u8]) -> bool
    ensures is { result ≡ (if instance.now.root then bytes_eq instance.now.name name.now else false) }
{
    instance.root && instance.name.as_slice() == name
}

// The number of the first root of a name; none where no root has it.
fn root_named(instances: &[Instance], name: &[u8]) -> Option<usize>
    ensures within { IfSome result (λ i. i < length instances.now) }
    ensures first { MatchOption result (R.root_named name.now (V.instances instances.now) ≡ None)
        (λ i. (d : an_instance) × (slice_get instances.now i ≡ Some d)
        × (R.root_named name.now (V.instances instances.now) ≡ Some (V.instance_of d))) }
{
    for (number, instance) in instances.iter().enumerate() {
        if is_root(instance, name) {
            return Some(number);
        }
    }
    None
}

// Whether a function has a name.
fn is_named(function: &Function, name: &[u8]) -> bool
    ensures is { result ≡ bytes_eq function.now.name name.now }
{
    function.name.as_slice() == name
}

// The number of the first function of a name; none where no function has it.
fn first_named(functions: &[Function], name: &[u8]) -> Option<usize>
    ensures within { IfSome result (λ f. f < length functions.now) }
    ensures named { MatchOption result (has_named name.now (map plain_function functions.now) ≡ false)
        (λ f. has_named name.now (map plain_function functions.now) ≡ true) }
    ensures is { IfSome result (λ i. (f : a_function) × (slice_get functions.now i ≡ Some f) × (f.name ≡ name.now)) }
{
    for (number, function) in functions.iter().enumerate() {
        if is_named(function, name) {
            return Some(number);
        }
    }
    None
}

// The number of the function that has a name; none where no function has it. The empty name names none.
fn function_named(functions: &[Function], name: &[u8]) -> Option<usize>
    ensures within { IfSome result (λ f. f < length functions.now) }
    ensures named { MatchOption result (names_one name.now (map plain_function functions.now) ≡ false)
        (λ f. names_one name.now (map plain_function functions.now) ≡ true) }
    ensures is { IfSome result (IsNamed name.now functions.now) }
{
    if name.is_empty() {
        return None;
    }
    first_named(functions, name)
}

// How many functions an instance has: one, or none where it is plain.
fn functions_of(instance: &Instance) -> usize
    ensures count { result ≡ functions_of (V.instance_of instance.now) }
    ensures few { result ≤ 1 }
{
    if instance.kind.is_ruled() { 1 } else { 0 }
}

// The function of an instance, if it has one, where so many functions are before it.
fn function_if(instance: &Instance, number: usize) -> Option<usize>
    ensures is { result ≡ function_if (V.instance_of instance.now).kind number }
{
    if instance.kind.is_ruled() {
        Some(number)
    } else {
        None
    }
}

// The function of the first root of a name, if it has one; none where no root has the name.
fn root_function(instances: &[Instance], name: &[u8]) -> Option<Option<usize>>
    ensures is { result ≡ root_function 0 name.now (V.instances instances.now) }
{
    let mut number = 0;
    for instance in instances {
        if is_root(instance, name) {
            return Some(function_if(instance, number));
        }
        number += functions_of(instance);
    }
    None
}

// The number of the function of the root that has the entry's name: E70 where none has it, E71 where it is plain.
fn function_of(alloc: Global, instances: &[Instance], entry: &str) -> Result<usize, Failure>
    ensures is { IfOk result (λ n. root_function 0 entry.now (V.instances instances.now) ≡ Some (Some n)) }
    ensures missed { IfErr result (IsRefusedBy (λ r.
        MissesFunction (root_function 0 entry.now (V.instances instances.now)) entry.now r)) }
    ensures stage { IfErr result IsOfSource }
{
    match root_function(instances, entry.as_bytes()) {
        Some(Some(function)) => Ok(function),
        Some(None) => Err(entry_refused(alloc, Rule::E71, entry)),
        None => Err(entry_refused(alloc, Rule::E70, entry)),
    }
}

// A code with a file, and the function of a number.
fn ready_at(verified: Verified, function: usize) -> Ready
    requires spelt { IsSpelt (plain verified.code) }
    requires within { function < length verified.code.functions.items }
    ensures same { result.checked ≡ verified }
    ensures entry { result.entry ≡ function }
{
    Ready {
        verified,
        entry: function,
    }
}

// A code that is verified, and one of its functions.
fn verified_entry(alloc: Global, lowered: Lowered, function: usize) -> Result<Ready, Failure>
    requires spelt { IsSpelt (plain lowered.code) }
    requires groups { AreMembers (V.program lowered.typed.program).instances lowered.groups }
    requires code { IsLoweredFrom (V.program lowered.typed.program) (plain lowered.code) }
    requires sound { IsSound (plain lowered.code) }
    requires within { function < length lowered.code.functions.items }
    ensures same { IfOk result (λ r. r.checked.code ≡ lowered.code) }
    ensures sound { IfOk result (λ r. IsSound (plain r.checked.code)) }
    ensures entry { IfOk result (λ r. r.entry ≡ function) }
    ensures out_of_memory { IfErr result (λ f. f ≡ NoMemory) }
    ensures stage { IfErr result IsOfSource }
{
    match verified_front(alloc, lowered) {
        Ok(front) => Ok(ready_at(front.verified, function)),
        Err(failure) => Err(failure),
    }
}

// The root that is run, of an accepted source.
fn compiled(alloc: Global, lowered: Lowered, entry: &str) -> Result<Ready, Failure>
    requires spelt { IsSpelt (plain lowered.code) }
    requires accepted { (source : List ℕ) × IsAccepted source (V.program lowered.typed.program) }
    requires groups { AreMembers (V.program lowered.typed.program).instances lowered.groups }
    requires code { IsLoweredFrom (V.program lowered.typed.program) (plain lowered.code) }
    requires sound { IsSound (plain lowered.code) }
    ensures ready { (source : List ℕ) → IsAccepted source (V.program lowered.typed.program) →
        OnOk result (IsReady source (Compiled entry.now)) }
    ensures code { (source : List ℕ) → IsAccepted source (V.program lowered.typed.program) →
        HasFile (plain lowered.code) → IfOk result (IsEntryOf source entry.now) }
    ensures kept { (source : List ℕ) → IsAccepted source (V.program lowered.typed.program) →
        IfErr result (KeepsFrom source (Compiled entry.now)) }
    ensures stage { IfErr result IsOfSource }
{
    match function_of(alloc, lowered.typed.program.instances.as_slice(), entry) {
        Ok(function) => verified_entry(alloc, lowered, function),
        Err(failure) => Err(failure),
    }
}

/// The code of a source that breaks no rule, and the root that is run. Else the source's report, and after it E70
/// where no root has the entry's name, E71 where the root is plain.
pub fn exec_entry(alloc: Global, source: &[u8], entry: &str) -> Result<Ready, Failure>
    ensures ready { OnOk result (IsReady source.now (Compiled entry.now)) }
    ensures code { IfOk result (IsEntryOf source.now entry.now) }
    ensures kept { IfErr result (KeepsFrom source.now (Compiled entry.now)) }
    ensures stage { IfErr result IsOfSource }
{
    match lawful(alloc, source) {
        Ok(lowered) => compiled(alloc, lowered, entry),
        Err(failure) => Err(failure),
    }
}

/// The code of a code file, and the function that is run. Bad code where the bytes are no code file, unsound where
/// its code isn't sound; E70 where no function has the entry's name, or it is empty.
pub fn run_entry(alloc: Global, bytes: &[u8], entry: &str) -> Result<Ready, Failure>
    ensures ready { OnOk result (HasFunction bytes.now entry.now) }
    ensures code { IfOk result (IsFunctionOf bytes.now entry.now) }
    ensures kept { IfErr result (KeepsFromRun bytes.now entry.now) }
    ensures stage { IfErr result IsOfSource }
{
    match code_of(alloc, bytes) {
        Ok(verified) => named_in(alloc, verified, entry),
        Err(failure) => Err(failure),
    }
}

// The function of a name, of a sound code.
fn named_in(alloc: Global, verified: Verified, entry: &str) -> Result<Ready, Failure>
    requires spelt { IsSpelt (plain verified.code) }
    ensures ready { OnOk result (names_one entry.now (plain verified.code).functions ≡ true) }
    ensures same { IfOk result (λ r. r.checked.code ≡ verified.code) }
    ensures named { IfOk result (λ r. IsNamed entry.now r.checked.code.functions.items r.entry) }
    ensures missed { IfErr result (IsRefusedBy (λ r. r ≡ of_entry E70 entry.now)) }
    ensures none { IfErr result (λ f. (names_one entry.now (plain verified.code).functions ≡ false) ⊎ (f ≡ NoMemory)) }
    ensures stage { IfErr result IsOfSource }
{
    match function_named(verified.code().functions.as_slice(), entry.as_bytes()) {
        Some(number) => Ok(Ready {
            verified,
            entry: number,
        }),
        None => Err(entry_refused(alloc, Rule::E70, entry)),
    }
}

// The root that is evaluated, of an accepted source.
fn rooted(alloc: Global, typed: Typed, entry: &str) -> Result<Evaluable, Failure>
    ensures ready { (source : List ℕ) → IsAccepted source (V.program typed.program) →
        OnOk result (IsReady source (Root entry.now)) }
    ensures found { (source : List ℕ) → IsAccepted source (V.program typed.program) →
        IfOk result (λ e. IsRootedIn source entry.now (V.program e.typed.program) e.entry) }
    ensures kept { (source : List ℕ) → IsAccepted source (V.program typed.program) →
        IfErr result (KeepsFrom source (Root entry.now)) }
    ensures stage { IfErr result IsOfSource }
{
    match root_named(typed.program.instances.as_slice(), entry.as_bytes()) {
        Some(number) => Ok(Evaluable {
            typed,
            entry: number,
        }),
        None => Err(entry_refused(alloc, Rule::E70, entry)),
    }
}

/// The program of a source that breaks no rule, and the root that is evaluated, which may be of any kind. Else the
/// source's report, and after it E70 where no root has the entry's name.
pub fn eval_entry(alloc: Global, source: &[u8], entry: &str) -> Result<Evaluable, Failure>
    ensures ready { OnOk result (IsReady source.now (Root entry.now)) }
    ensures found { IfOk result (λ e. IsRootedIn source.now entry.now (V.program e.typed.program) e.entry) }
    ensures kept { IfErr result (KeepsFrom source.now (Root entry.now)) }
    ensures stage { IfErr result IsOfSource }
{
    match lawful(alloc, source) {
        Ok(lowered) => rooted(alloc, lowered.typed, entry),
        Err(failure) => Err(failure),
    }
}
