//! Where the functions of a module stand in its list.
ghost use Rattle.std.specs.Prelude.{◌≡◌, ◌+◌, ◌-◌, ◌*◌, ◌^◌, ◌<◌, ◌≤◌, ◌%◌, ◌&&◌, nat_eq, ◌++◌, ◌∷◌, [], cond, IfOk, OnOk, length};
ghost use Rattle.std.specs.List.{list_any};
ghost use Rattle.workload_gen.specs.Modules.{calls_function, own_choices, has_call_to, is_declared, declared_below, place_in};
ghost use Rattle.workload_gen.specs.Places.{AreForward, IsCalled, AreCounts, Reaches};

use crate::choices::Choice;
use gimple_ir::NoMemory;
use std::alloc::Global;

/// A module of all functions by its number, and which functions of others it declares.
#[derive(Drop)]
pub struct Places<'a> {
    pub choices: &'a [Choice],
    pub module_number: u32,
    pub declared: Vec<u32>,
    end: u32,
    before: Vec<u32>,
    ghost numbered: { length choices.now < 2 ^ 32 },
    ghost forward: { AreForward choices.now },
    ghost some: { 50 * module_number ≤ length choices.now },
    ghost ended: { end ≡ 50 * module_number + length (own_choices choices.now module_number) },
    ghost listed: { declared.items ≡ declared_below (own_choices choices.now module_number) module_number (length choices.now) },
    ghost counted: { AreCounts (own_choices choices.now module_number) module_number end before.items },
    ghost enough: { Reaches choices.now module_number (end + length before.items) },
}

impl<'a> Places<'a> {
    /// The places of a module that begins no later than where the functions end; each function calls later ones.
    pub fn new(
        alloc: Global,
        choices: &'a [Choice],
        module_number: u32,
    ) -> Result<Places<'a>, NoMemory>
        requires numbered { length choices.now < 2 ^ 32 }
        requires forward { AreForward choices.now }
        requires some { 50 * module_number ≤ length choices.now }
        ensures choices { IfOk result (λ places. places.choices.now ≡ choices.now) }
        ensures module_number { IfOk result (λ places. places.module_number ≡ module_number) }
    {
        let own = own_choices(choices, module_number);
        let end = 50 * module_number + own.len() as u32;
        let limit = reach(choices, module_number, end);
        let (declared, before) = tables(alloc, own, module_number, end, limit)?;
        Ok(Places {
            choices,
            module_number,
            declared,
            end,
            before,
        })
    }

    /// The module's own functions.
    pub fn own(&self) -> &'a [Choice]
        ensures { result.now ≡ own_choices self.now.choices.now self.now.module_number }
    {
        own_choices(self.choices, self.module_number)
    }

    /// The place of a function that the module calls.
    pub fn place(&self, number: u32) -> u32
        requires { IsCalled self.now.choices.now self.now.module_number number }
        ensures { result ≡ place_in self.now.choices.now self.now.module_number number }
    {
        if number < self.end {
            self.declared.len() as u32 + number % 50
        } else {
            self.before[(number - self.end) as usize]
        }
    }
}

/// The functions of a module.
fn own_choices(choices: &[Choice], module_number: u32) -> &[Choice]
    requires { 50 * module_number ≤ length choices.now }
    ensures { result.now ≡ own_choices choices.now module_number }
{
    let rest = &choices[50 * module_number as usize..];
    &rest[..rest.len().min(50)]
}

/// Up to where a module calls functions: `main`, in module 0, to the end, and others up to seven further than they stand.
fn reach(choices: &[Choice], module_number: u32, end: u32) -> u32
    requires numbered { length choices.now < 2 ^ 32 }
    requires forward { AreForward choices.now }
    requires some { 50 * module_number ≤ length choices.now }
    requires ended { end ≡ 50 * module_number + length (own_choices choices.now module_number) }
    ensures reaches { Reaches choices.now module_number result }
    ensures after { end ≤ result }
    ensures within { result ≤ length choices.now }
{
    let count = choices.len() as u32;
    if module_number == 0 {
        count
    } else {
        end + (count - end).min(7)
    }
}

/// The functions that a module declares below a limit, and how many of them stand below each number from `end` on.
fn tables(
    alloc: Global,
    own: &[Choice],
    module_number: u32,
    end: u32,
    limit: u32,
) -> Result<(Vec<u32>, Vec<u32>), NoMemory>
    requires order { end ≤ limit }
    requires none { declared_below own.now module_number end ≡ [] }
    ensures declared { IfOk result (λ tables. tables.0.items ≡ declared_below own.now module_number limit) }
    ensures before { IfOk result (λ tables. AreCounts own.now module_number end tables.1.items) }
    ensures long { IfOk result (λ tables. end + length tables.1.items ≡ limit) }
{
    let mut declared = Vec::new(alloc);
    let mut before = Vec::with_capacity(alloc, (limit - end) as usize)?;
    for number in end..limit {
        before.push(declared.len() as u32)?;
        declare(&mut declared, own, module_number, number)?;
    }
    Ok((declared, before))
}

/// Appends the function if the module declares it.
fn declare(
    declared: &mut Vec<u32>,
    own: &[Choice],
    module_number: u32,
    number: u32,
) -> Result<(), NoMemory>
    ensures { OnOk result (declared.new.items ≡ declared.old.items ++ cond (is_declared own.now module_number number) (number ∷ []) []) }
{
    if is_declared(own, module_number, number) {
        declared.push(number)?;
    }
    Ok(())
}

/// Whether the functions, or `main`, call the function, and it is of another module.
fn is_declared(own: &[Choice], module_number: u32, number: u32) -> bool
    ensures { result ≡ is_declared own.now module_number number }
{
    is_called(own, module_number, number) && number / 50 != module_number
}

fn is_called(own: &[Choice], module_number: u32, number: u32) -> bool
    ensures { result ≡ has_call_to own.now module_number number }
{
    some_calls(own, number) || is_called_by_main(module_number, number)
}

fn some_calls(own: &[Choice], number: u32) -> bool
    ensures { result ≡ list_any (calls_function number) own.now }
{
    own.iter().any(|choice| calls_function(*choice, number))
}

fn is_called_by_main(module_number: u32, number: u32) -> bool
    ensures { result ≡ (nat_eq module_number 0 && nat_eq (number % 10) 0) }
{
    module_number == 0 && number % 10 == 0
}

fn calls_function(choice: Choice, number: u32) -> bool
    ensures { result ≡ calls_function number choice }
{
    choice.call.is_some_and(|call| call.callee == number)
}
