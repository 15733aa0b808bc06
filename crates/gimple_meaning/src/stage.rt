//! The state of a run between two steps, and how each plan changes it.
ghost use Rattle.std.specs.Prelude.{◌≡◌, ◌+◌, ◌∷◌, ◌++◌, [], ◌<◌, ◌^◌, ℕ, pos, negsuc, All, Some, IfOk, IfSome, OnOk, OnErr, slice_get, slice_set, unwrap_or};
ghost use Rattle.std.specs.Option.{option_copied, option_map_or};
ghost use Rattle.gimple_ir.specs.Values.{IsValue, value_of};
ghost use Rattle.gimple_ir.specs.Programs.{HasValues, IsArgument, IsElement};
ghost use Rattle.gimple_meaning.specs.Acts.{copied, element_type, read_byte, unread, with_element};
ghost use Rattle.gimple_meaning.specs.Held.{IsCell, HasInitial, HasLiterals, HasNext};
ghost use Rattle.gimple_meaning.specs.Moves.{move_of, MoveFits, IsPlain};
ghost use Rattle.gimple_meaning.specs.Source.{begun, pairs_from, place_of, source_of, start, struct_pairs, target_at, target_of};
ghost use Rattle.gimple_meaning.specs.Stages.{machine_of, state_of, acted, planned_from, called_from, effect_from, opened_from, read_from, stepped, function_at};
ghost use Rattle.gimple_meaning.specs.Systems.{Running, moved, left, resumed, status};

use crate::arrays::Arrays;
use crate::cells::Cells;
use crate::frames::{Frame, Waiting};
use crate::layout::Layout;
use crate::moves::{Move, call_of, low_byte, planned};
use crate::passing::{can_pass, opened, passed};
use crate::phase::Phase;
use gimple_ir::{Args, Function, NoMemory, Program, ScalarType, Statement, Value};
use std::alloc::Global;
use std::marker::Model;
use std::mem::replace;

/// As many calls are active at most, the first frame included.
const MOST_FRAMES: usize = 4096;

/// A run with its newest frame apart from those that wait; `read` bytes of the input have been read.
#[derive(Drop)]
pub struct Stage<'a> {
    program: &'a Program,
    layouts: Vec<Layout<'a>>,
    arrays: Arrays<'a>,
    frame: Frame,
    waiting: Waiting,
    input: Vec<u8>,
    read: usize,
    output: Vec<u8>,
}

impl<'a> Model for Stage<'a> {
    ghost use Rattle.gimple_meaning.specs.Stages.{Stage as Standing};

    ghost Value = { Standing };

    ghost use Rattle.gimple_meaning.specs.StageView.{stage_of, IsSound};

    ghost view = { stage_of };

    ghost invariant = { IsSound };
}

fn byte_value(byte: Option<u8>) -> Value
    ensures value { result ≡ value_of ScalarType.Int (option_map_or (λ byte. pos byte) byte (negsuc 0)) }
    ensures well_formed { IsValue result }
{
    let num = match byte {
        Some(byte) => i128::from(byte),
        None => -1,
    };
    Value {
        ty: ScalarType::Int,
        num,
    }
}

fn number(place: usize) -> Result<u32, NoMemory>
    ensures { IfOk result (λ number. number ≡ place) }
{
    if place > u32::MAX as usize {
        return Err(NoMemory);
    }
    Ok(place as u32)
}

fn status(value: Option<Value>) -> u8
    ensures { result ≡ status value }
{
    match value {
        Some(value) => low_byte(value.num),
        None => 0,
    }
}

fn target_of(statement: &Statement) -> Option<u32>
    ensures { result ≡ target_of (Some statement.now) }
{
    match statement {
        Statement::Call { to, .. } => *to,
        _ => None,
    }
}

fn statement_at(function: &Function, place: u32) -> Option<&Statement>
    ensures { option_copied result ≡ slice_get function.now.body place }
{
    function.body.as_slice().get(place as usize)
}

fn target_at(program: &Program, frame: &Frame) -> Option<u32>
    ensures { result ≡ target_at (slice_get program.now.functions frame.now.function) frame.now.place }
{
    let function = program.functions.as_slice().get(frame.function() as usize)?;
    let statement = function.body.as_slice().get(frame.place() as usize)?;
    target_of(statement)
}

fn layouts<'a>(alloc: Global, functions: &'a [Function]) -> Result<Vec<Layout<'a>>, NoMemory>
    ensures { IfOk result (λ layouts. layouts.items ≡ functions.now) }
{
    let mut layouts = Vec::new(alloc);
    for function in functions {
        layouts.push(Layout::new(alloc, function)?)?;
    }
    Ok(layouts)
}

fn first_components(alloc: Global, main: Option<&Layout>) -> Result<Cells, NoMemory>
    ensures { IfOk result (λ cells. cells ≡ unwrap_or (begun (option_copied main.entry) []) []) }
{
    match main {
        Some(layout) => opened(layout, Vec::new(alloc)),
        None => Ok(Cells::from_vec(Vec::new(alloc))),
    }
}

impl<'a> Stage<'a> {
    /// A run before its first step.
    pub fn start(alloc: Global, program: &'a Program, input: Vec<u8>) -> Result<Stage<'a>, NoMemory>
        requires arrays { All HasInitial program.now.arrays }
        requires functions { All HasLiterals program.now.functions }
        ensures program { IfOk result (λ stage. stage.program ≡ program.now) }
        ensures state { IfOk result (λ stage. Running (machine_of stage) ≡ start program.now input.items) }
    {
        let arrays = Arrays::start(alloc, &program.arrays)?;
        let layouts = layouts(alloc, program.functions.as_slice())?;
        let components = first_components(alloc, layouts.get(program.main as usize))?;
        Ok(Stage {
            program,
            layouts,
            arrays,
            frame: Frame::new(program.main, components),
            waiting: Waiting::new(alloc),
            input,
            read: 0,
            output: Vec::new(alloc),
        })
    }

    /// The number of the newest frame's function.
    pub fn function_number(&self) -> u32
        ensures { result ≡ self.now.frame.function }
    {
        self.frame.function()
    }

    /// The place of the newest frame's next statement.
    pub fn place(&self) -> u32
        ensures { result ≡ self.now.frame.place }
    {
        self.frame.place()
    }

    /// What has been written.
    pub fn output(&self) -> &[u8]
        ensures { result.now ≡ self.now.output }
    {
        self.output.as_slice()
    }

    fn go_to(&mut self, place: u32)
        ensures { self.new ≡ record self.old { frame = moved self.old.frame place self.old.frame.components } }
    {
        self.frame.go_to(place);
    }

    fn assign(&mut self, place: u32, to: u32, value: Value)
        requires { IsCell (Some value) }
        ensures { self.new ≡ record self.old { frame = moved self.old.frame place (slice_set self.old.frame.components to (Some value)) } }
    {
        self.frame.assign(place, to as usize, Some(value));
    }

    fn copy(&mut self, place: u32, to: usize, from: usize, count: usize)
        requires to { to + count < 2 ^ 64 }
        requires from { from + count < 2 ^ 64 }
        ensures { self.new ≡ record self.old { frame = moved self.old.frame place (copied self.old.frame.components (pairs_from to from count)) } }
    {
        self.frame.copy(place, to, from, count);
    }

    fn store(&mut self, place: u32, array: u32, index: usize, num: i128)
        requires { IfSome (element_type self.old.program.arrays array) (λ element. IsElement element num) }
        ensures { self.new ≡ record self.old { frame = moved self.old.frame place self.old.frame.components; arrays = with_element self.old.arrays array index num } }
    {
        self.arrays.store(array, index, num);
        self.frame.go_to(place);
    }

    fn print(&mut self, place: u32, byte: u8) -> Result<(), NoMemory>
        ensures ok { OnOk result (self.new ≡ record self.old { frame = moved self.old.frame place self.old.frame.components; output = self.old.output ++ byte ∷ [] }) }
        ensures err { OnErr result (self.new ≡ self.old) }
    {
        self.output.push(byte)?;
        self.frame.go_to(place);
        Ok(())
    }

    fn take_byte(&mut self) -> Option<u8>
        ensures value { option_map_or (λ byte. pos byte) result (negsuc 0) ≡ read_byte self.old.input }
        ensures after { self.new ≡ record self.old { input = unread self.old.input } }
    {
        if self.read == self.input.len() {
            return None;
        }
        let byte = self.input[self.read];
        self.read += 1;
        Some(byte)
    }

    fn read(&mut self, place: u32, to: Option<u32>)
        ensures { self.new ≡ read_from self.old place to }
    {
        let value = byte_value(self.take_byte());
        match to {
            Some(to) => self.assign(place, to, value),
            None => self.go_to(place),
        }
    }

    fn function(&self) -> Option<&'a Function>
        ensures { option_copied result ≡ function_at self.now }
    {
        let program = self.program;
        program
            .functions
            .as_slice()
            .get(self.frame.function() as usize)
    }

    fn layout(&self) -> Option<&Layout<'a>>
        ensures { option_copied result ≡ function_at self.now }
    {
        self.layouts.get(self.frame.function() as usize)
    }

    fn label_place(&self, function: &Function, label: u32) -> Result<u32, NoMemory>
        requires { function_at self.now ≡ Some function.now }
        ensures { IfOk result (λ place. place ≡ place_of function.now.body label) }
    {
        match self.layout() {
            Some(layout) => number(layout.place(label)),
            None => Err(NoMemory),
        }
    }

    fn copy_struct(
        &mut self,
        function: &Function,
        place: u32,
        to: u32,
        from: u32,
    ) -> Result<(), NoMemory>
        requires { function_at self.old ≡ Some function.now }
        ensures ok { OnOk result (self.new ≡ record self.old { frame = moved self.old.frame place (copied self.old.frame.components (struct_pairs function.now.variables to from)) }) }
        ensures err { OnErr result (self.new ≡ self.old) }
    {
        let Some(layout) = self.layout() else {
            return Err(NoMemory);
        };
        let count = layout.components_of(from);
        let to = layout.first_component(to);
        let from = layout.first_component(from);
        if to.checked_add(count).is_none() || from.checked_add(count).is_none() {
            return Err(NoMemory);
        }
        self.copy(place, to, from, count);
        Ok(())
    }

    fn resume(&mut self, caller: Frame, value: Option<Value>)
        requires value { IsCell value }
        requires next { HasNext caller }
        ensures { self.new ≡ record self.old { frame = resumed (source_of self.old.program) caller value } }
    {
        let place = caller.place() + 1;
        let target = target_at(self.program, &caller);
        self.frame = caller;
        match target {
            Some(to) => self.frame.assign(place, to as usize, value),
            None => self.frame.go_to(place),
        }
    }

    fn leave(&mut self, value: Option<Value>) -> Phase
        requires { IsCell value }
        ensures program { self.new.program ≡ self.old.program }
        ensures state { state_of self.new result ≡ left (source_of self.old.program) (machine_of self.old) self.old.rest value }
    {
        match self.waiting.pop() {
            Some(caller) => {
                self.resume(caller, value);
                Phase::Running
            }
            None => Phase::Ended(status(value)),
        }
    }

    fn enter(&mut self, callee: Frame) -> Result<(), NoMemory>
        requires { HasNext self.old.frame }
        ensures ok { OnOk result (self.new ≡ record self.old { frame = callee; rest = self.old.frame ∷ self.old.rest }) }
        ensures err { OnErr result (self.new ≡ self.old) }
    {
        let caller = replace(&mut self.frame, callee);
        match self.waiting.push(caller) {
            Ok(()) => Ok(()),
            Err(caller) => {
                self.frame = caller;
                Err(NoMemory)
            }
        }
    }

    fn opened(
        &self,
        function: &Function,
        callee: u32,
        args: &Args,
    ) -> Result<Option<Cells>, NoMemory>
        requires here { function_at self.now ≡ Some function.now }
        requires args { All IsArgument args.now }
        ensures { IfOk result (λ cells. cells ≡ opened_from self.now function.now callee args.now) }
    {
        let cells = self.frame.components();
        if !can_pass(cells, args) {
            return Ok(None);
        }
        if self.waiting.len() >= MOST_FRAMES - 1 {
            return Ok(None);
        }
        let Some(callee) = self.layouts.get(callee as usize) else {
            return Ok(None);
        };
        let Some(layout) = self.layout() else {
            return Err(NoMemory);
        };
        let values = passed(*self.output.allocator(), layout, cells, args)?;
        Ok(Some(opened(callee, values)?))
    }

    fn call(&mut self, function: &Function, callee: u32, args: &Args) -> Result<Phase, NoMemory>
        requires here { function_at self.old ≡ Some function.now }
        requires args { All IsArgument args.now }
        ensures program { self.new.program ≡ self.old.program }
        ensures ok { IfOk result (λ phase. state_of self.new phase ≡ called_from self.old function.now callee args.now) }
        ensures err { OnErr result (self.new ≡ self.old) }
    {
        let _next = self.frame.next()?;
        match self.opened(function, callee, args)? {
            Some(cells) => {
                self.enter(Frame::new(callee, cells))?;
                Ok(Phase::Running)
            }
            None => Ok(Phase::Undefined),
        }
    }

    fn plan(&self, function: &Function, statement: &Statement) -> Move
        requires here { function_at self.now ≡ Some function.now }
        requires values { HasValues statement.now }
        ensures value { result ≡ move_of function.now self.now.program.arrays self.now.frame.components self.now.arrays statement.now }
        ensures fits { MoveFits self.now.program.arrays result }
    {
        match self.layout() {
            Some(layout) => planned(layout, &self.arrays, self.frame.components(), statement),
            None => Move::Fault,
        }
    }

    fn apply(&mut self, function: &Function, planned: Move) -> Result<Phase, NoMemory>
        requires here { function_at self.old ≡ Some function.now }
        requires fits { MoveFits self.old.program.arrays planned }
        ensures program { self.new.program ≡ self.old.program }
        ensures ok { IfOk result (λ phase. state_of self.new phase ≡ planned_from self.old function.now planned) }
        ensures err { OnErr result (self.new ≡ self.old) }
    {
        let next = self.frame.next()?;
        match planned {
            Move::Fault => Ok(Phase::Undefined),
            Move::Next => {
                self.go_to(next);
                Ok(Phase::Running)
            }
            Move::Jump(label) => {
                let place = self.label_place(function, label)?;
                self.go_to(place);
                Ok(Phase::Running)
            }
            Move::Assign(to, value) => {
                self.assign(next, to, value);
                Ok(Phase::Running)
            }
            Move::Store(array, index, num) => {
                self.store(next, array, index, num);
                Ok(Phase::Running)
            }
            Move::CopyStruct(to, from) => {
                self.copy_struct(function, next, to, from)?;
                Ok(Phase::Running)
            }
            Move::Print(byte) => {
                self.print(next, byte)?;
                Ok(Phase::Running)
            }
            Move::Read(to) => {
                self.read(next, to);
                Ok(Phase::Running)
            }
            Move::Leave(value) => Ok(self.leave(value)),
            Move::End(status) => Ok(Phase::Ended(status)),
        }
    }

    fn act(&mut self, function: &Function, statement: &Statement) -> Result<Phase, NoMemory>
        requires here { function_at self.old ≡ Some function.now }
        requires plain { IsPlain statement.now }
        requires values { HasValues statement.now }
        ensures program { self.new.program ≡ self.old.program }
        ensures ok { IfOk result (λ phase. state_of self.new phase ≡ effect_from self.old function.now statement.now) }
        ensures err { OnErr result (self.new ≡ self.old) }
    {
        let planned = self.plan(function, statement);
        self.apply(function, planned)
    }

    /// One step, of a run that goes on: does the newest frame's statement, and says how the run stands then.
    pub fn advance(&mut self) -> Result<Phase, NoMemory>
        ensures program { self.new.program ≡ self.old.program }
        ensures ok { IfOk result (λ phase. state_of self.new phase ≡ stepped self.old) }
        ensures err { OnErr result (self.new ≡ self.old) }
    {
        let Some(function) = self.function() else {
            return Ok(Phase::Undefined);
        };
        let Some(statement) = statement_at(function, self.frame.place()) else {
            return Ok(Phase::Undefined);
        };
        match call_of(statement) {
            Some((callee, args)) => self.call(function, callee, args),
            None => self.act(function, statement),
        }
    }
}
