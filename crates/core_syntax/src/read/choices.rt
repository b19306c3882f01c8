//! Forms that choose.

ghost use Rattle.std.specs.Prelude.{◌≡◌, [], OnOk};
ghost use Rattle.script_value.specs.Val.{list};
ghost use Rattle.script_value.specs.Views.{meaning, meanings};
ghost use Rattle.core_syntax.specs.Forms as spec;
ghost use Rattle.core_syntax.specs.Trees.{pair_of};
ghost use Rattle.core_syntax.specs.Gives.{Gives, Reads};
ghost use Rattle.core_syntax.specs.ReaderSeen.{ReadsChoice, here};
ghost use Rattle.core_syntax.specs.Views.{if_parts};

use super::Reader;
use crate::faults::{ReadFault, SyntaxKind};
use crate::tree::{Choice, Tree, choose, only_choice};
use script_value::Value;

impl<'a, 'c> Reader<'a, 'c> {
    /// A choice of two.
    #[cycle(read)]
    pub(super) fn read_if(
        &mut self,
        in_page: bool,
        test: &'a Value,
        chosen: &'a Value,
        otherwise: &'a Value,
    ) -> Result<Tree, ReadFault>
        ensures tree { Reads result (here self.old spec.if_form in_page (if_parts test.now chosen.now otherwise.now)) }
        ensures kept { OnOk result (self.new ≡ self.old) }
    {
        let choices = self.read_both(in_page, test, chosen)?;
        let otherwise = self.read(in_page, otherwise)?;
        choose(self.alloc, choices, otherwise)
    }

    /// The choice of a test and of what is taken where it is not false.
    #[cycle(read)]
    fn read_both(
        &mut self,
        in_page: bool,
        test: &'a Value,
        chosen: &'a Value,
    ) -> Result<Vec<Choice>, ReadFault>
        ensures tree { ReadsChoice result self.old in_page test.now chosen.now }
        ensures kept { OnOk result (self.new ≡ self.old) }
    {
        let test = self.read(in_page, test)?;
        let body = self.read(in_page, chosen)?;
        only_choice(self.alloc, test, body)
    }

    /// The clauses of a `cond`, the last of which is its `else`.
    #[cycle(read)]
    pub(super) fn read_choices(
        &mut self,
        in_page: bool,
        clauses: &'a [Value],
    ) -> Result<Tree, ReadFault>
        ensures tree { Reads result (here self.old spec.choices in_page [] (meanings clauses.now)) }
        ensures kept { OnOk result (self.new ≡ self.old) }
    {
        let mut choices = Vec::new(self.alloc);
        for place in 0..clauses.len() {
            if place + 1 == clauses.len() {
                let otherwise = self.read_choice_body(in_page, &clauses[place])?;
                return choose(self.alloc, choices, otherwise);
            }
            let choice = self.read_choice(in_page, &clauses[place])?;
            choices.push(choice)?;
        }
        Err(ReadFault::Syntax(SyntaxKind::NoElse))
    }

    /// The test and the body of a clause.
    #[cycle(read)]
    fn read_choice(&mut self, in_page: bool, clause: &'a Value) -> Result<Choice, ReadFault>
        ensures tree { Gives pair_of result (here self.old spec.choice in_page (meaning clause.now)) }
        ensures kept { OnOk result (self.new ≡ self.old) }
    {
        let test = self.read_choice_test(in_page, clause)?;
        let body = self.read_choice_body(in_page, clause)?;
        Ok(Choice { test, body })
    }

    #[cycle(read)]
    fn read_choice_test(&mut self, in_page: bool, clause: &'a Value) -> Result<Tree, ReadFault>
        ensures tree { Reads result (here self.old spec.choice_test in_page (meaning clause.now)) }
        ensures kept { OnOk result (self.new ≡ self.old) }
    {
        match clause {
            Value::List(items) => self.read_first(in_page, items.as_slice()),
            _ => Err(ReadFault::Syntax(SyntaxKind::Shape)),
        }
    }

    #[cycle(read)]
    fn read_first(&mut self, in_page: bool, items: &'a [Value]) -> Result<Tree, ReadFault>
        ensures tree { Reads result (here self.old spec.choice_test in_page (list (meanings items.now))) }
        ensures kept { OnOk result (self.new ≡ self.old) }
    {
        match items {
            [] => Err(ReadFault::Syntax(SyntaxKind::Shape)),
            [test, ..] => self.read(in_page, test),
        }
    }

    #[cycle(read)]
    fn read_choice_body(&mut self, in_page: bool, clause: &'a Value) -> Result<Tree, ReadFault>
        ensures tree { Reads result (here self.old spec.choice_body in_page (meaning clause.now)) }
        ensures kept { OnOk result (self.new ≡ self.old) }
    {
        match clause {
            Value::List(items) => self.read_others(in_page, items.as_slice()),
            _ => Err(ReadFault::Syntax(SyntaxKind::Shape)),
        }
    }

    #[cycle(read)]
    fn read_others(&mut self, in_page: bool, items: &'a [Value]) -> Result<Tree, ReadFault>
        ensures tree { Reads result (here self.old spec.choice_body in_page (list (meanings items.now))) }
        ensures kept { OnOk result (self.new ≡ self.old) }
    {
        match items {
            [] => Err(ReadFault::Syntax(SyntaxKind::Shape)),
            [_test, body @ ..] => self.read_body(in_page, body),
        }
    }
}
