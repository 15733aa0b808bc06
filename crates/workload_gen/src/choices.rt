//! What is drawn for each function.
ghost use Rattle.std.specs.Prelude.{◌≡◌, ◌<◌, ◌+◌, IfOk, OnOk};
ghost use Rattle.workload_gen.specs.Choices.{operator_of, unsigned, argument_of, after_argument, call_of, calls_of, after_calls, after_choice, choice_of, choices_of, start};
ghost use Rattle.workload_gen.specs.Places.{AreForward};
ghost use Rattle.workload_gen.specs.Draws.{after, draw};

use crate::draws::Draws;
use gimple_ir::{BinaryOp, NoMemory, Operand, ScalarType, Value};
use std::alloc::Global;

/// A call to a later function: its number, and the second argument.
#[derive(Clone, Copy)]
pub struct Call {
    pub callee: u32,
    pub argument: Operand,
}

/// What is drawn for a function; the last one calls nothing.
#[derive(Clone, Copy)]
pub struct Choice {
    pub first: BinaryOp,
    pub constant: u32,
    pub second: BinaryOp,
    pub call: Option<Call>,
}

/// A literal of the type `unsigned int`.
pub fn unsigned(number: u32) -> Operand
    ensures { result ≡ unsigned number }
{
    Operand::Literal(Value {
        ty: ScalarType::UnsignedInt,
        num: i128::from(number),
    })
}

impl Draws {
    #[tactic(auto, unfolding(crate::specs::Draws::after))]
    fn operator(&mut self) -> BinaryOp
        ensures state { self.new.state ≡ after 1 self.old.state }
        ensures value { result ≡ operator_of (draw self.old.state 0 4) }
    {
        let number = self.draw(4);
        operator(number)
    }

    #[tactic(auto, unfolding(crate::specs::Draws::after, crate::specs::Choices::argument_of, crate::specs::Choices::after_argument))]
    fn argument(&mut self) -> Operand
        ensures state { self.new.state ≡ after_argument self.old.state }
        ensures value { result ≡ argument_of self.old.state }
    {
        if self.draw(2) == 1 {
            return Operand::Component(1);
        }
        unsigned(self.draw(4))
    }

    #[tactic(auto, unfolding(crate::specs::Draws::after, crate::specs::Choices::call_of))]
    fn call(&mut self, count: u32, number: u32) -> Call
        requires { number + 1 < count }
        ensures state { self.new.state ≡ after_argument (after 1 self.old.state) }
        ensures value { result ≡ call_of count number self.old.state }
    {
        let distance = self.draw((count - 1 - number).min(7));
        Call {
            callee: number + 1 + distance,
            argument: self.argument(),
        }
    }

    #[tactic(auto, unfolding(crate::specs::Draws::after, crate::specs::Choices::choice_of, crate::specs::Choices::calls_of, crate::specs::Choices::after_choice))]
    fn choice(&mut self, count: u32, number: u32) -> Choice
        requires { number < count }
        ensures state { self.new.state ≡ after_choice count number self.old.state }
        ensures value { result ≡ choice_of count number self.old.state }
    {
        let first = self.operator();
        let constant = self.draw(1000);
        let second = self.operator();
        let call = self.calls(count, number);
        Choice {
            first,
            constant,
            second,
            call,
        }
    }

    /// A call, unless the function is the last.
    #[tactic(auto, unfolding(crate::specs::Choices::calls_of, crate::specs::Choices::after_calls))]
    fn calls(&mut self, count: u32, number: u32) -> Option<Call>
        requires { number < count }
        ensures state { self.new.state ≡ after_calls count number self.old.state }
        ensures value { result ≡ calls_of count number self.old.state }
    {
        if number + 1 == count {
            return None;
        }
        Some(self.call(count, number))
    }
}

fn operator(number: u32) -> BinaryOp
    ensures { result ≡ operator_of number }
{
    match number {
        0 => BinaryOp::Add,
        1 => BinaryOp::Sub,
        2 => BinaryOp::Mul,
        _ => BinaryOp::Xor,
    }
}

/// What is drawn for so many functions, in order; the draws are those that come next.
pub fn choices(alloc: Global, draws: &mut Draws, count: u32) -> Result<Vec<Choice>, NoMemory>
    ensures state { OnOk result (draws.new.state ≡ start draws.old.state count count) }
    ensures value { IfOk result (λ choices. choices.items ≡ choices_of draws.old.state count) }
    ensures forward { IfOk result (λ choices. AreForward choices.items) }
{
    let mut choices = Vec::with_capacity(alloc, count as usize)?;
    for number in 0..count {
        choices.push(draws.choice(count, number))?;
    }
    Ok(choices)
}
