ghost use Rattle.std.specs.Prelude.{◌≡◌, ◌≤◌, ◌+◌, ◌-◌, ◌^◌, ◌++◌, ◌∷◌, [], true, false, Some, IfOk, IfSome, is_err, is_none, min, vec_len, vec_capacity};
ghost use Rattle.std.specs.VecDeque.{deque_len};
ghost use Rattle.web_outside.specs.Causes.{HasCause};
ghost use Rattle.web_outside.specs.Porches.{GivesFirst, given_after, lent_after, lent_count, EndsOnly};

use crate::{CONNECTION_LIMIT, Failed, Porch, TextLink};
use std::alloc::{AllocError, Global};
use std::collections::VecDeque;

/// A porch in memory: it gives the links of a list, and keeps those that are handed back.
#[derive(Drop)]
pub struct ListPorch {
    coming: VecDeque<TextLink>,
    served: Vec<TextLink>,
    // The numbers of the calls for the next link that fail, the first being 0.
    failing: Vec<u64>,
    calls: u64,
    given: u64,
    most: u64,
    lent: bool,
    faults: u64,
    ghost roomy: { vec_len served + lent_count lent + deque_len coming ≤ vec_capacity served },
    ghost within: { given ≤ most },
    ghost bounded: { most ≤ 1000000 },
}

impl ListPorch {
    ghost use Rattle.web_outside.specs.Lists.{porch_coming, porch_served, IsOpened};

    /// The links in order; the calls for the next one that have these numbers fail.
    pub fn new(
        alloc: Global,
        links: Vec<TextLink>,
        failing: Vec<u64>,
    ) -> Result<ListPorch, AllocError>
        ensures coming { IfOk result (λ porch. porch_coming porch ≡ links.items) }
        ensures served { IfOk result (λ porch. porch_served porch ≡ []) }
        ensures failing { IfOk result (λ porch. porch.failing.items ≡ failing.items) }
        ensures calls { IfOk result (λ porch. porch.calls ≡ 0) }
        ensures given { IfOk result (λ porch. porch.given ≡ 0) }
        ensures most { IfOk result (λ porch. porch.most ≡ CONNECTION_LIMIT) }
        ensures home { IfOk result (λ porch. porch.lent ≡ false) }
        ensures faults { IfOk result (λ porch. porch.faults ≡ 0) }
    {
        Ok(ListPorch {
            served: Vec::with_capacity(alloc, links.len())?,
            coming: VecDeque::from(links),
            failing,
            calls: 0,
            given: 0,
            most: CONNECTION_LIMIT,
            lent: false,
            faults: 0,
        })
    }

    /// Begins anew with the links that are still to come, of which at most so many are given.
    pub fn open(&mut self, connections: u64)
        requires { connections ≤ CONNECTION_LIMIT }
        ensures opened { IsOpened connections self.new }
        ensures coming { porch_coming self.new ≡ porch_coming self.old }
        ensures failing { self.new.failing.items ≡ self.old.failing.items }
    {
        self.served.clear();
        self.calls = 0;
        self.given = 0;
        self.most = connections;
        self.lent = false;
        self.faults = 0;
    }

    /// The links that were handed back, as they were then, in order.
    pub fn served(&self) -> &[TextLink]
        ensures { result.now ≡ porch_served self.now }
    {
        &self.served
    }
}

impl Porch for ListPorch {
    ghost use Rattle.web_outside.specs.Views.{is_listed, CountsFault};
    ghost use Rattle.web_outside.specs.Lists.{porch_view, porch_coming, porch_served, porch_ended, SamePorch};

    type Link = TextLink;

    ghost view = { λ porch. porch_view porch };

    fn faults(&self) -> u64 {
        self.faults
    }

    // It fails exactly where it is listed, and else ends exactly where no more links come.
    fn next(&mut self) -> Result<Option<TextLink>, Failed>
        ensures first { GivesFirst result (Some (porch_coming self.old))
            (Some (porch_coming self.new)) }
        ensures given { self.new.given ≡ given_after result self.old.given }
        ensures lent { self.new.lent ≡ lent_after result self.old.lent }
        ensures bound { IfOk result (λ next. IfSome next (λ _. self.new.given ≤ self.new.most)) }
        ensures most { self.new.most ≡ self.old.most }
        ensures limit { self.new.most ≤ CONNECTION_LIMIT }
        ensures ended { EndsOnly result self.old.given self.old.most
            (Some (porch_coming self.old)) }
        ensures served { porch_served self.new ≡ porch_served self.old }
        ensures cause { HasCause self.old.faults self.new.faults result }
        ensures fails { is_err result ≡ is_listed self.old.calls self.old.failing.items }
        ensures ends { IfOk result (λ next. is_none next ≡ porch_ended self.old) }
        ensures counted { self.new.calls ≡ min (self.old.calls + 1) (2 ^ 64 - 1) }
        ensures faults { CountsFault self.old.faults self.new.faults result }
        ensures rules { SamePorch self.old self.new }
    {
        let number = self.calls;
        self.calls = number.saturating_add(1);
        if self.failing.contains(&number) {
            self.faults = self.faults.saturating_add(1);
            return Err(Failed);
        }
        if self.given == self.most {
            return Ok(None);
        }
        let Some(link) = self.coming.pop_front() else {
            return Ok(None);
        };
        self.given += 1;
        self.lent = true;
        Ok(Some(link))
    }

    fn back(&mut self, link: TextLink)
        requires { self.old.lent ≡ true }
        ensures served { porch_served self.new ≡ porch_served self.old ++ link ∷ [] }
        ensures home { self.new.lent ≡ false }
        ensures coming { porch_coming self.new ≡ porch_coming self.old }
        ensures given { self.new.given ≡ self.old.given }
        ensures faults { self.new.faults ≡ self.old.faults }
        ensures calls { self.new.calls ≡ self.old.calls }
        ensures rules { SamePorch self.old self.new }
    {
        self.lent = false;
        match self.served.push(link) {
            Ok(()) => {}
            Err(_) => unreachable!(),
        }
    }
}
