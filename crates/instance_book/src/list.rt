ghost use Rattle.std.specs.Prelude.{◌≡◌, [], length, IfOk, IfSome, IfNone, OnOk};
ghost use Rattle.std.specs.Option.{option_copied};
ghost use Rattle.journal_records.specs.ReplaySpec.Admission.{is_one};
ghost use Rattle.instance_book.specs.Orders.{Rises, IsAt, Finds, numbers_of};
ghost use Rattle.instance_book.specs.Lists.{HasRoom, HasNone, HasNumbersOf, thing_at, things_with, things_without};

use crate::in_order::InOrder;
use crate::numbered::Numbered;
use std::alloc::{AllocError, Global};
use std::mem;

// Where the thing of a number stands, or where it would.
fn search<T: Drop>(things: &[Numbered<T>], number: u64) -> Result<usize, usize>
    requires { Rises (numbers_of things.now) }
    ensures { Finds (numbers_of things.now) number result }
{
    things.binary_search_by_key(&number, |thing| thing.number)
}

impl<T: Drop> InOrder<T> {
    /// Nothing; it takes no memory.
    pub fn new(alloc: Global) -> InOrder<T>
        ensures { result.things.items ≡ [] }
    {
        InOrder {
            things: Vec::new(alloc),
        }
    }

    /// Nothing, and room for one thing.
    pub fn with_room(alloc: Global) -> Result<InOrder<T>, AllocError>
        ensures things { IfOk result (λ list. list.things.items ≡ []) }
        ensures room { IfOk result HasRoom }
    {
        Ok(InOrder {
            things: Vec::with_capacity(alloc, 1)?,
        })
    }

    /// How many there are.
    pub fn len(&self) -> usize
        ensures { result ≡ length self.now.things.items }
    {
        self.things.len()
    }

    /// The things, in the order of their numbers.
    pub fn as_slice(&self) -> &[Numbered<T>]
        ensures { result.now ≡ self.now.things.items }
    {
        self.things.as_slice()
    }

    /// The thing of a number.
    pub fn get(&self, number: u64) -> Option<&Numbered<T>>
        ensures { option_copied result ≡ thing_at number self.now }
    {
        match search(&self.things, number) {
            Ok(place) => Some(&self.things[place]),
            Err(_) => None,
        }
    }

    /// The place of the thing of a number.
    pub fn place(&self, number: u64) -> Option<usize>
        ensures found { IfSome result (IsAt (numbers_of self.now.things.items) number) }
        ensures absent { IfNone result (HasNone number self.now) }
    {
        search(&self.things, number).ok()
    }

    /// Whether there is a thing of a number.
    pub fn has(&self, number: u64) -> bool
        ensures { result ≡ is_one number (numbers_of self.now.things.items) }
    {
        search(&self.things, number).is_ok()
    }

    /// Makes room for one thing more; the things stay.
    pub fn make_room(&mut self) -> Result<(), AllocError>
        ensures things { self.new.things.items ≡ self.old.things.items }
        ensures room { OnOk result (HasRoom self.new) }
    {
        self.things.try_reserve(1)
    }

    /// One thing more, in the place of the one of its number; it takes no memory.
    pub fn put(&mut self, thing: Numbered<T>)
        requires { HasRoom self.old }
        ensures { self.new.things.items ≡ things_with thing self.old }
    {
        match search(&self.things, thing.number) {
            Ok(place) => drop(mem::replace(&mut self.things[place], thing)),
            Err(place) => drop(self.things.insert(place, thing)),
        }
    }

    /// All things but the one of a number.
    pub fn remove(&mut self, number: u64)
        ensures { self.new.things.items ≡ things_without number self.old }
    {
        match search(&self.things, number) {
            Ok(place) => drop(self.things.remove(place)),
            Err(_) => (),
        }
    }

    /// The numbers alone.
    pub fn numbers(&self, alloc: Global) -> Result<InOrder<()>, AllocError>
        ensures { IfOk result (HasNumbersOf self.now) }
    {
        let mut things = Vec::new(alloc);
        for thing in &self.things {
            things.push(Numbered {
                number: thing.number,
                item: (),
            })?;
        }
        Ok(InOrder { things })
    }
}
