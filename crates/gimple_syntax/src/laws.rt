//! What the stand-ins for statements with a struct in place of a component are for.
ghost use Rattle.std.specs.Prelude.{◌≡◌, ℕ, List, false};
ghost use Rattle.gimple_ir.specs.declared.types.Case.{Case as ACase};
ghost use Rattle.gimple_ir.specs.Statements.{Scope as Checked, types_fit};
ghost use Rattle.gimple_syntax.specs.Statements.{ill_typed, ill_typed_condition, ill_typed_switch, ill_typed_return};

/// No stand-in has fitting types, whatever function of whatever module it stands in.
pub fn stand_ins_are_ill_typed()
    ensures statement { (s : Checked) → types_fit s ill_typed ≡ false }
    ensures condition { (s : Checked) (met missed : ℕ) → types_fit s (ill_typed_condition met missed) ≡ false }
    ensures switch { (s : Checked) (cases : List ACase) (otherwise : ℕ) → types_fit s (ill_typed_switch cases otherwise) ≡ false }
    ensures returned { (s : Checked) → types_fit s (ill_typed_return s.function.result) ≡ false }
{}
