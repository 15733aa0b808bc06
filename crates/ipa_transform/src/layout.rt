//! Where the components of a member's variables lie.
ghost use Rattle.std.specs.Prelude.{◌≡◌, ◌≤◌, ◌+◌, length, sum_by, IfOk};
ghost use Rattle.ipa_transform.specs.Versioned.{first_component, field_count};
ghost use Rattle.ipa_transform.specs.Members.{IsMember, sums_from};

use gimple_ir::{List, Member, NoMemory, ScalarType};
use std::alloc::Global;
use std::marker::Model;

/// A member, with the number of components before each of its variables, and that of all.
#[derive(Drop)]
pub struct Layout<'a> {
    member: &'a Member,
    sums: Vec<u32>,
}

impl<'a> Model for Layout<'a> {
    ghost use Rattle.std.specs.Prelude.{◌≡◌};
    ghost use Rattle.gimple_ir.specs.declared.unit.Member.{Member as Source};
    ghost use Rattle.ipa_transform.specs.Members.{IsMember, sums_from};

    ghost Value = { Source };

    ghost view = { λ layout. layout.member.now };

    ghost invariant = { λ layout. IsMember layout.member.now × (layout.sums.items ≡ sums_from 0 layout.member.now.variables) };
}

fn sums(alloc: Global, variables: &[List<ScalarType>]) -> Result<Vec<u32>, NoMemory>
    requires { sum_by length variables.now ≤ 1024 }
    ensures { IfOk result (λ sums. sums.items ≡ sums_from 0 variables.now) }
{
    let mut total = 0u32;
    let mut sums = Vec::new(alloc);
    for types in variables {
        sums.push(total)?;
        total += types.len() as u32;
    }
    sums.push(total)?;
    Ok(sums)
}

impl<'a> Layout<'a> {
    /// Lays the components of a member out, in one pass over its variables.
    pub fn new(alloc: Global, member: &'a Member) -> Result<Layout<'a>, NoMemory>
        requires { IsMember member.now }
        ensures { IfOk result (λ layout. layout ≡ member.now) }
    {
        let sums = sums(alloc, member.variables.as_slice())?;
        Ok(Layout { member, sums })
    }

    /// The member.
    pub fn member(&self) -> &Member
        ensures value { result.now ≡ self.now }
        ensures asked { IsMember self.now }
    {
        self.member
    }

    /// The number of components of the variable, or 0 where the number names none.
    pub fn fields(&self, variable: u32) -> u32
        ensures value { result ≡ field_count self.now.variables variable }
        ensures small { field_count self.now.variables variable ≤ 1024 }
    {
        let place = variable as usize;
        let variables = &self.member.variables;
        if place < variables.len() {
            variables.get(place).len() as u32
        } else {
            0
        }
    }

    /// The first component of the variable, or the number of all where the number names none.
    pub fn first(&self, variable: u32) -> u32
        ensures value { result ≡ first_component self.now.variables variable }
        ensures small { first_component self.now.variables variable ≤ 1024 }
    {
        let place = variable as usize;
        let count = self.member.variables.len();
        if place < count {
            self.sums[place]
        } else {
            self.sums[count]
        }
    }
}
