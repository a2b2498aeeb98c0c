// Rules in their order.
ghost use Rattle.std.specs.Prelude.{◌≡◌, None, Option, List};
ghost use Rattle.serde_json.specs.Data.{Data};
ghost use Rattle.serde_json.specs.View.{view, items_view};
ghost use Rattle.ty_rules.specs.declared.rule.Rule.{Rule};
ghost use Rattle.ty_rules.specs.Tests.{items};
ghost use Rattle.ty_rules.specs.Checks.{Tells, row, or_later, first_in, list_of, if_given};

use crate::rule::{Rule, ValueFault};
use crate::test::{Test, given};
use serde_json::Value;
use std::alloc::Global;

/// What finds the first rule that a value breaks.
pub trait Check {
    ghost breaks: { Self → Data → Option Rule };

    /// Answers with the first broken rule, or with want of memory.
    fn check(&self, alloc: Global, value: &Value) -> Result<(), ValueFault>
        ensures { Tells result (breaks self.now (view value.now)) };
}

/// One rule and its test.
#[derive(Drop)]
pub struct Row<T>(pub Rule, pub T);

impl<T: Test> Check for Row<T> {
    ghost breaks = { λ t. row t.0 (T.Test.holds t.1) };

    fn check(&self, _alloc: Global, value: &Value) -> Result<(), ValueFault> {
        if self.1.accepts(value) {
            Ok(())
        } else {
            Err(ValueFault::Broken { rule: self.0 })
        }
    }
}

/// Rules, and then others.
#[derive(Drop)]
pub struct Then<A, B>(pub A, pub B);

impl<A: Check, B: Check> Check for Then<A, B> {
    ghost breaks = { λ t d. or_later (A.Check.breaks t.0 d) (B.Check.breaks t.1 d) };

    fn check(&self, alloc: Global, value: &Value) -> Result<(), ValueFault> {
        self.0.check(alloc, value)?;
        self.1.check(alloc, value)
    }
}

/// No more rules.
#[derive(Drop)]
pub struct Done;

impl Check for Done {
    ghost breaks = { λ _ _. None };

    fn check(&self, _alloc: Global, _value: &Value) -> Result<(), ValueFault> {
        Ok(())
    }
}

/// A table of rules, the first of which is tried first.
#[macro_export]
macro_rules! table {
    () => { $crate::Done };
    ($first:expr $(, $rest:expr)* $(,)?) => { $crate::Then($first, $crate::table!($($rest),*)) };
}

/// An array, whose members are tried one after another. A value that is no array breaks the rule named first.
#[derive(Drop)]
pub struct ListOf<C>(pub Rule, pub C);

impl<C: Check> Check for ListOf<C> {
    ghost breaks = { λ t. list_of t.0 (C.Check.breaks t.1) };

    fn check(&self, alloc: Global, value: &Value) -> Result<(), ValueFault> {
        match value.as_array() {
            Some(list) => check_each(alloc, &self.1, list),
            None => Err(ValueFault::Broken { rule: self.0 }),
        }
    }
}

fn check_each<C: Check>(alloc: Global, check: &C, list: &Vec<Value>) -> Result<(), ValueFault>
    ensures { Tells result (first_in (C.Check.breaks check.now) (items (items_view list.now.items))) }
{
    for item in list {
        check.check(alloc, item)?;
    }
    Ok(())
}

/// The rules of a member, where it is there and is not null.
#[derive(Drop)]
pub struct IfGiven<'n, C>(pub &'n str, pub C);

impl<C: Check> Check for IfGiven<'_, C> {
    ghost breaks = { λ t. if_given t.0.now (C.Check.breaks t.1) };

    fn check(&self, alloc: Global, value: &Value) -> Result<(), ValueFault> {
        match given(value, self.0) {
            Some(member) => self.1.check(alloc, member),
            None => Ok(()),
        }
    }
}
