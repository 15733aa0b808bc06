//! The canonical text of a statement, appended part by part.
ghost use Rattle.std.specs.Prelude.{◌≡◌, ◌++◌, OnOk, codes};
ghost use Rattle.std.specs.List.{flat_map};
ghost use Rattle.gimple_print.specs.Statements.{operand_text, operation_text, target_text, argument_text, arguments_text, branches_text, case_text, choices_text, statement_text, indent_text, line_text};

use crate::scope::Scope;
use crate::words::{binary_text, put_literal, unary_text};
use gimple_ir::{Arg, Args, BinaryOp, Case, List, NoMemory, Operand, Statement, UnaryOp};

const PUTCHAR: &str = "__builtin_putchar (";

const EXIT: &str = "__builtin_exit (";

impl<'a> Scope<'a> {
    fn put_operand(&self, out: &mut Vec<u8>, operand: Operand) -> Result<(), NoMemory>
        ensures { OnOk result (out.new.items ≡ out.old.items ++ operand_text self.now operand) }
    {
        match operand {
            Operand::Component(component) => out.extend_from_slice(self.component(component))?,
            Operand::Literal(value) => put_literal(out, value)?,
        }
        Ok(())
    }

    /// What an assignment begins with, if the statement assigns.
    fn put_target(&self, out: &mut Vec<u8>, to: Option<u32>) -> Result<(), NoMemory>
        ensures { OnOk result (out.new.items ≡ out.old.items ++ target_text self.now to) }
    {
        if let Some(component) = to {
            out.extend_from_slice(self.component(component))?;
            out.extend_from_slice(b" = ")?;
        }
        Ok(())
    }

    fn put_argument(&self, out: &mut Vec<u8>, argument: Arg) -> Result<(), NoMemory>
        ensures { OnOk result (out.new.items ≡ out.old.items ++ argument_text self.now argument) }
    {
        match argument {
            Arg::One(operand) => self.put_operand(out, operand)?,
            Arg::Whole(variable) => out.extend_from_slice(self.variable(variable))?,
        }
        Ok(())
    }

    fn put_more_arguments(&self, out: &mut Vec<u8>, args: &[Arg]) -> Result<(), NoMemory>
        ensures { OnOk result (out.new.items ≡ out.old.items ++ flat_map (λ a. codes ", " ++ argument_text self.now a) args.now) }
    {
        for argument in args {
            out.extend_from_slice(b", ")?;
            self.put_argument(out, *argument)?;
        }
        Ok(())
    }

    fn put_arguments(&self, out: &mut Vec<u8>, args: &[Arg]) -> Result<(), NoMemory>
        ensures { OnOk result (out.new.items ≡ out.old.items ++ arguments_text self.now args.now) }
    {
        if let Some((first, more)) = args.split_first() {
            self.put_argument(out, *first)?;
            self.put_more_arguments(out, more)?;
        }
        Ok(())
    }

    fn put_label(&self, out: &mut Vec<u8>, label: u32) -> Result<(), NoMemory>
        ensures { OnOk result (out.new.items ≡ out.old.items ++ statement_text self.now (Statement.Label label)) }
    {
        out.extend_from_slice(self.label(label))?;
        out.push(b':')?;
        Ok(())
    }

    fn put_goto(&self, out: &mut Vec<u8>, label: u32) -> Result<(), NoMemory>
        ensures { OnOk result (out.new.items ≡ out.old.items ++ statement_text self.now (Statement.Goto label)) }
    {
        out.extend_from_slice(b"goto ")?;
        out.extend_from_slice(self.label(label))?;
        out.push(b';')?;
        Ok(())
    }

    /// Two operands and the operator between them.
    fn put_operation(
        &self,
        out: &mut Vec<u8>,
        op: BinaryOp,
        left: Operand,
        right: Operand,
    ) -> Result<(), NoMemory>
        ensures { OnOk result (out.new.items ≡ out.old.items ++ operation_text self.now op left right) }
    {
        self.put_operand(out, left)?;
        out.push(b' ')?;
        out.extend_from_slice(binary_text(op).as_bytes())?;
        out.push(b' ')?;
        self.put_operand(out, right)?;
        Ok(())
    }

    /// Where a condition goes that is met, and one that is not.
    fn put_branches(&self, out: &mut Vec<u8>, met: u32, missed: u32) -> Result<(), NoMemory>
        ensures { OnOk result (out.new.items ≡ out.old.items ++ branches_text self.now met missed) }
    {
        out.extend_from_slice(b"goto ")?;
        out.extend_from_slice(self.label(met))?;
        out.extend_from_slice(b"; else goto ")?;
        out.extend_from_slice(self.label(missed))?;
        out.push(b';')?;
        Ok(())
    }

    fn put_cond(
        &self,
        out: &mut Vec<u8>,
        op: BinaryOp,
        operands: (Operand, Operand),
        labels: (u32, u32),
    ) -> Result<(), NoMemory>
        ensures { OnOk result (out.new.items ≡ out.old.items ++ statement_text self.now (Statement.Cond op operands.0 operands.1 labels.0 labels.1)) }
    {
        out.extend_from_slice(b"if (")?;
        self.put_operation(out, op, operands.0, operands.1)?;
        out.extend_from_slice(b") ")?;
        self.put_branches(out, labels.0, labels.1)?;
        Ok(())
    }

    fn put_case(&self, out: &mut Vec<u8>, case: &Case) -> Result<(), NoMemory>
        ensures { OnOk result (out.new.items ≡ out.old.items ++ case_text self.now case.now) }
    {
        out.extend_from_slice(b", case ")?;
        put_literal(out, case.value)?;
        out.extend_from_slice(b": ")?;
        out.extend_from_slice(self.label(case.label))?;
        Ok(())
    }

    fn put_cases(&self, out: &mut Vec<u8>, cases: &[Case]) -> Result<(), NoMemory>
        ensures { OnOk result (out.new.items ≡ out.old.items ++ flat_map (case_text self.now) cases.now) }
    {
        for case in cases {
            self.put_case(out, case)?;
        }
        Ok(())
    }

    /// Where a switch goes.
    fn put_choices(&self, out: &mut Vec<u8>, cases: &[Case], otherwise: u32) -> Result<(), NoMemory>
        ensures { OnOk result (out.new.items ≡ out.old.items ++ choices_text self.now cases.now otherwise) }
    {
        out.extend_from_slice(b"<default: ")?;
        out.extend_from_slice(self.label(otherwise))?;
        self.put_cases(out, cases)?;
        out.extend_from_slice(b">;")?;
        Ok(())
    }

    fn put_switch(
        &self,
        out: &mut Vec<u8>,
        on: Operand,
        cases: &List<Case>,
        otherwise: u32,
    ) -> Result<(), NoMemory>
        ensures { OnOk result (out.new.items ≡ out.old.items ++ statement_text self.now (Statement.Switch on cases.now otherwise)) }
    {
        self.put_between(out, "switch (", on, ") ")?;
        self.put_choices(out, cases.as_slice(), otherwise)?;
        Ok(())
    }

    /// An operand between two texts.
    fn put_between(
        &self,
        out: &mut Vec<u8>,
        before: &str,
        operand: Operand,
        after: &str,
    ) -> Result<(), NoMemory>
        ensures { OnOk result (out.new.items ≡ out.old.items ++ (before.now ++ (operand_text self.now operand ++ after.now))) }
    {
        out.extend_from_slice(before.as_bytes())?;
        self.put_operand(out, operand)?;
        out.extend_from_slice(after.as_bytes())?;
        Ok(())
    }

    fn put_copy(&self, out: &mut Vec<u8>, to: u32, from: Operand) -> Result<(), NoMemory>
        ensures { OnOk result (out.new.items ≡ out.old.items ++ statement_text self.now (Statement.Copy to from)) }
    {
        self.put_target(out, Some(to))?;
        self.put_operand(out, from)?;
        out.push(b';')?;
        Ok(())
    }

    fn put_unary(
        &self,
        out: &mut Vec<u8>,
        to: u32,
        op: UnaryOp,
        from: Operand,
    ) -> Result<(), NoMemory>
        ensures { OnOk result (out.new.items ≡ out.old.items ++ statement_text self.now (Statement.Unary to op from)) }
    {
        self.put_target(out, Some(to))?;
        out.extend_from_slice(unary_text(op).as_bytes())?;
        self.put_operand(out, from)?;
        out.push(b';')?;
        Ok(())
    }

    fn put_convert(&self, out: &mut Vec<u8>, to: u32, from: Operand) -> Result<(), NoMemory>
        ensures { OnOk result (out.new.items ≡ out.old.items ++ statement_text self.now (Statement.Convert to from)) }
    {
        self.put_target(out, Some(to))?;
        out.push(b'(')?;
        out.extend_from_slice(self.component_type(to).as_bytes())?;
        out.extend_from_slice(b") ")?;
        self.put_operand(out, from)?;
        out.push(b';')?;
        Ok(())
    }

    fn put_binary(
        &self,
        out: &mut Vec<u8>,
        to: u32,
        op: BinaryOp,
        left: Operand,
        right: Operand,
    ) -> Result<(), NoMemory>
        ensures { OnOk result (out.new.items ≡ out.old.items ++ statement_text self.now (Statement.Binary to op left right)) }
    {
        self.put_target(out, Some(to))?;
        self.put_operation(out, op, left, right)?;
        out.push(b';')?;
        Ok(())
    }

    fn put_load(
        &self,
        out: &mut Vec<u8>,
        to: u32,
        array: u32,
        index: Operand,
    ) -> Result<(), NoMemory>
        ensures { OnOk result (out.new.items ≡ out.old.items ++ statement_text self.now (Statement.Load to array index)) }
    {
        self.put_target(out, Some(to))?;
        out.extend_from_slice(self.array(array))?;
        out.push(b'[')?;
        self.put_operand(out, index)?;
        out.extend_from_slice(b"];")?;
        Ok(())
    }

    fn put_store(
        &self,
        out: &mut Vec<u8>,
        array: u32,
        index: Operand,
        from: Operand,
    ) -> Result<(), NoMemory>
        ensures { OnOk result (out.new.items ≡ out.old.items ++ statement_text self.now (Statement.Store array index from)) }
    {
        out.extend_from_slice(self.array(array))?;
        out.push(b'[')?;
        self.put_operand(out, index)?;
        out.extend_from_slice(b"] = ")?;
        self.put_operand(out, from)?;
        out.push(b';')?;
        Ok(())
    }

    fn put_copy_struct(&self, out: &mut Vec<u8>, to: u32, from: u32) -> Result<(), NoMemory>
        ensures { OnOk result (out.new.items ≡ out.old.items ++ statement_text self.now (Statement.CopyStruct to from)) }
    {
        out.extend_from_slice(self.variable(to))?;
        out.extend_from_slice(b" = ")?;
        out.extend_from_slice(self.variable(from))?;
        out.push(b';')?;
        Ok(())
    }

    fn put_call(
        &self,
        out: &mut Vec<u8>,
        to: Option<u32>,
        function: u32,
        args: &Args,
    ) -> Result<(), NoMemory>
        ensures { OnOk result (out.new.items ≡ out.old.items ++ statement_text self.now (Statement.Call to function args.now)) }
    {
        self.put_target(out, to)?;
        out.extend_from_slice(self.function(function))?;
        out.extend_from_slice(b" (")?;
        self.put_arguments(out, args.as_slice())?;
        out.extend_from_slice(b");")?;
        Ok(())
    }

    fn put_getchar(&self, out: &mut Vec<u8>, to: Option<u32>) -> Result<(), NoMemory>
        ensures { OnOk result (out.new.items ≡ out.old.items ++ statement_text self.now (Statement.Getchar to)) }
    {
        self.put_target(out, to)?;
        out.extend_from_slice(b"__builtin_getchar ();")?;
        Ok(())
    }

    fn put_statement(&self, out: &mut Vec<u8>, statement: &Statement) -> Result<(), NoMemory>
        ensures { OnOk result (out.new.items ≡ out.old.items ++ statement_text self.now statement.now) }
    {
        match statement {
            Statement::Nop => out.push(b';')?,
            Statement::Label(label) => self.put_label(out, *label)?,
            Statement::Goto(label) => self.put_goto(out, *label)?,
            Statement::Cond {
                op,
                left,
                right,
                yes,
                no,
            } => self.put_cond(out, *op, (*left, *right), (*yes, *no))?,
            Statement::Switch {
                on,
                cases,
                otherwise,
            } => self.put_switch(out, *on, cases, *otherwise)?,
            Statement::ReturnVoid => out.extend_from_slice(b"return;")?,
            Statement::Return(operand) => self.put_between(out, "return ", *operand, ";")?,
            Statement::Copy { to, from } => self.put_copy(out, *to, *from)?,
            Statement::Unary { to, op, from } => self.put_unary(out, *to, *op, *from)?,
            Statement::Convert { to, from } => self.put_convert(out, *to, *from)?,
            Statement::Binary {
                to,
                op,
                left,
                right,
            } => self.put_binary(out, *to, *op, *left, *right)?,
            Statement::Load { to, array, index } => self.put_load(out, *to, *array, *index)?,
            Statement::Store { array, index, from } => self.put_store(out, *array, *index, *from)?,
            Statement::CopyStruct { to, from } => self.put_copy_struct(out, *to, *from)?,
            Statement::Call { to, function, args } => self.put_call(out, *to, *function, args)?,
            Statement::Putchar(operand) => self.put_between(out, PUTCHAR, *operand, ");")?,
            Statement::Getchar(to) => self.put_getchar(out, *to)?,
            Statement::Exit(operand) => self.put_between(out, EXIT, *operand, ");")?,
        }
        Ok(())
    }

    /// Appends the statement's line.
    pub fn put_line(&self, out: &mut Vec<u8>, statement: &Statement) -> Result<(), NoMemory>
        ensures { OnOk result (out.new.items ≡ out.old.items ++ line_text self.now statement.now) }
    {
        out.extend_from_slice(indent_text(statement).as_bytes())?;
        self.put_statement(out, statement)?;
        out.push(b'\n')?;
        Ok(())
    }
}

fn indent_text(statement: &Statement) -> &'static str
    ensures { result.now ≡ indent_text statement.now }
{
    match statement {
        Statement::Label(_) => "",
        _ => "  ",
    }
}
