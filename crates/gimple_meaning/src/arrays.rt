//! The numbers in a program's arrays.
ghost use Rattle.std.specs.Prelude.{◌≡◌, ℤ, ◌<◌, ◌^◌, ◌-◌, ◌≤ℤ◌, pos, All, IfOk, IfSome, slice_get, slice_set, option_and_then, unsigned_abs};
ghost use Rattle.std.specs.Option.{option_map};
ghost use Rattle.gimple_ir.specs.Values.{IsValue};
ghost use Rattle.gimple_ir.specs.Programs.{IsElement};
ghost use Rattle.gimple_ir.specs.Statements.{read_type};
ghost use Rattle.gimple_meaning.specs.Acts.{element_type, element_at, with_element};
ghost use Rattle.gimple_meaning.specs.Held.{HasInitial};
ghost use Rattle.gimple_meaning.specs.Moves.{loaded_at};
ghost use Rattle.gimple_meaning.specs.Systems.{first_arrays, first_numbers};

use gimple_ir::{Array, ElementType, List, NoMemory, ScalarType, Value};
use std::alloc::Global;
use std::marker::Model;

/// The numbers in one array.
#[derive(Drop)]
pub struct Numbers {
    items: Vec<i128>,
}

impl Model for Numbers {
    ghost use Rattle.std.specs.Prelude.{List as Seq, ℤ};

    ghost Value = { Seq ℤ };

    ghost view = { λ numbers. numbers.items.items };
}

impl Numbers {
    fn start(alloc: Global, array: &Array) -> Result<Numbers, NoMemory>
        ensures { IfOk result (λ numbers. numbers ≡ first_numbers array.now) }
    {
        let mut items = Vec::from_slice(alloc, array.initial.as_slice())?;
        let length = array.length as usize;
        if items.len() >= length {
            return Ok(Numbers { items });
        }
        items.resize(length, 0)?;
        Ok(Numbers { items })
    }

    fn get(&self, place: usize) -> Option<i128>
        ensures { result ≡ slice_get self.now place }
    {
        self.items.get(place).copied()
    }

    fn set(&mut self, place: usize, num: i128)
        ensures { self.new ≡ slice_set self.old place num }
    {
        if place < self.items.len() {
            self.items[place] = num;
        }
    }
}

/// The numbers in all arrays of a program, each of its element's type.
#[derive(Drop)]
pub struct Arrays<'a> {
    declared: &'a List<Array>,
    numbers: Vec<Numbers>,
}

impl<'a> Model for Arrays<'a> {
    ghost use Rattle.gimple_meaning.specs.Held.{Storage, AreElements};

    ghost Value = { Storage };

    ghost view = { λ arrays. record { declared = arrays.declared.now; numbers = arrays.numbers.items } };

    ghost invariant = { λ arrays. AreElements arrays.declared.now arrays.numbers.items };
}

fn read_as(element: ElementType) -> ScalarType
    ensures { result ≡ read_type element }
{
    match element {
        ElementType::Scalar(ty) => ty,
        ElementType::UnsignedChar => ScalarType::Int,
    }
}

fn all_numbers(alloc: Global, declared: &[Array]) -> Result<Vec<Numbers>, NoMemory>
    ensures { IfOk result (λ numbers. numbers.items ≡ first_arrays declared.now) }
{
    let mut numbers = Vec::new(alloc);
    for array in declared {
        numbers.push(Numbers::start(alloc, array)?)?;
    }
    Ok(numbers)
}

impl<'a> Arrays<'a> {
    /// The arrays with their initial values.
    pub fn start(alloc: Global, declared: &'a List<Array>) -> Result<Arrays<'a>, NoMemory>
        requires { All HasInitial declared.now }
        ensures declared { IfOk result (λ arrays. arrays.declared ≡ declared.now) }
        ensures numbers { IfOk result (λ arrays. arrays.numbers ≡ first_arrays declared.now) }
    {
        let numbers = all_numbers(alloc, declared.as_slice())?;
        Ok(Arrays { declared, numbers })
    }

    /// The type of an array's elements.
    pub fn element(&self, array: u32) -> Option<ElementType>
        ensures { result ≡ element_type self.now.declared array }
    {
        match self.declared.as_slice().get(array as usize) {
            Some(found) => Some(found.element),
            None => None,
        }
    }

    fn number(&self, array: u32, place: usize) -> Option<i128>
        ensures { result ≡ option_and_then (λ numbers. slice_get numbers place) (slice_get self.now.numbers array) }
    {
        let numbers = self.numbers.get(array as usize)?;
        numbers.get(place)
    }

    /// The element at an index, or None where the index is not from 0 below the length.
    pub fn at(&self, array: u32, index: i128) -> Option<i128>
        requires { index ≤ℤ pos (2 ^ 64 - 1) }
        ensures { result ≡ element_at self.now.numbers array index }
    {
        if index < 0 {
            return None;
        }
        self.number(array, index as usize)
    }

    fn read(&self, array: u32, index: i128) -> Option<Value>
        requires { index ≤ℤ pos (2 ^ 64 - 1) }
        ensures { result ≡ loaded_at self.now.declared self.now.numbers array index }
    {
        let element = self.element(array)?;
        let num = self.at(array, index)?;
        Some(Value {
            ty: read_as(element),
            num,
        })
    }

    /// The element at an index as it is read, or None where there is no such array or element.
    pub fn load(&self, array: u32, index: i128) -> Option<Value>
        requires { index ≤ℤ pos (2 ^ 64 - 1) }
        ensures value { result ≡ loaded_at self.now.declared self.now.numbers array index }
        ensures well_formed { IfSome result IsValue }
    {
        let _ = &self.declared;
        self.read(array, index)
    }

    /// Writes an element, if it is there.
    pub fn store(&mut self, array: u32, place: usize, num: i128)
        requires { IfSome (element_type self.old.declared array) (λ element. IsElement element num) }
        ensures declared { self.new.declared ≡ self.old.declared }
        ensures numbers { self.new.numbers ≡ with_element self.old.numbers array place num }
    {
        if (array as usize) < self.numbers.len() {
            let numbers = &mut self.numbers[array as usize];
            numbers.set(place, num);
        }
    }
}
