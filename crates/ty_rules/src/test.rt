// Tests of values, and how they are joined.
ghost use Rattle.std.specs.Prelude.{◌≡◌, ◌&&◌, ◌||◌, Bool, true, false, List, ℕ, option_map};
ghost use Rattle.serde_json.specs.Data.{Data};
ghost use Rattle.serde_json.specs.View.{view, items_view};
ghost use Rattle.std.specs.List.{list_all};
ghost use Rattle.ty_rules.specs.Tests.{given, boolean, object, text, text_of, array_of, has_items, filled_array, optional, required, items, whole, whole_within, where_also};

use serde_json::Value;

/// A test of a value.
pub trait Test {
    ghost holds: { Self → Data → Bool };

    /// Whether the value passes.
    fn accepts(&self, value: &Value) -> bool
        ensures { result ≡ holds self.now (view value.now) };
}

/// A test of a text.
pub trait TextTest {
    ghost reads: { Self → List ℕ → Bool };

    /// Whether the text passes.
    fn takes(&self, text: &str) -> bool
        ensures { result ≡ reads self.now text.now };
}

/// The member of this name, where it is there and is not null.
pub fn given<'v>(value: &'v Value, name: &str) -> Option<&'v Value>
    ensures { option_map (λ v. view v.now) result ≡ given name.now (view value.now) }
{
    let found = value.get(name)?;
    if found.is_null() { None } else { Some(found) }
}

/// True or false.
#[derive(Drop)]
pub struct IsBool;

impl Test for IsBool {
    ghost holds = { λ _. boolean };

    fn accepts(&self, value: &Value) -> bool {
        value.is_boolean()
    }
}

/// An object.
#[derive(Drop)]
pub struct IsObject;

impl Test for IsObject {
    ghost holds = { λ _. object };

    fn accepts(&self, value: &Value) -> bool {
        value.is_object()
    }
}

/// A string.
#[derive(Drop)]
pub struct IsText;

impl Test for IsText {
    ghost holds = { λ _. text };

    fn accepts(&self, value: &Value) -> bool {
        value.is_string()
    }
}

/// A string that passes.
#[derive(Drop)]
pub struct TextOf<T>(pub T);

impl<T: TextTest> Test for TextOf<T> {
    ghost holds = { λ t. text_of (T.TextTest.reads t.0) };

    fn accepts(&self, value: &Value) -> bool {
        match value.as_str() {
            Some(text) => self.0.takes(text),
            None => false,
        }
    }
}

fn all_pass<T: Test>(test: &T, list: &Vec<Value>) -> bool
    ensures { result ≡ list_all (T.Test.holds test.now) (items (items_view list.now.items)) }
{
    list.iter().all(|item| test.accepts(item))
}

/// An array of values that pass.
#[derive(Drop)]
pub struct ArrayOf<T>(pub T);

impl<T: Test> Test for ArrayOf<T> {
    ghost holds = { λ t. array_of (T.Test.holds t.0) };

    fn accepts(&self, value: &Value) -> bool {
        match value.as_array() {
            Some(items) => all_pass(&self.0, items),
            None => false,
        }
    }
}

/// An array that has a member.
#[derive(Drop)]
pub struct FilledArray;

impl Test for FilledArray {
    ghost holds = { λ _. filled_array };

    fn accepts(&self, value: &Value) -> bool {
        match value.as_array() {
            Some(items) => has_items(items),
            None => false,
        }
    }
}

fn has_items(items: &Vec<Value>) -> bool
    ensures { result ≡ has_items (items_view items.now.items) }
{
    !items.as_slice().is_empty()
}

/// A member that is absent, null or passes.
#[derive(Drop)]
pub struct Optional<'n, T>(pub &'n str, pub T);

impl<T: Test> Test for Optional<'_, T> {
    ghost holds = { λ t. optional t.0.now (T.Test.holds t.1) };

    fn accepts(&self, value: &Value) -> bool {
        match given(value, self.0) {
            Some(member) => self.1.accepts(member),
            None => true,
        }
    }
}

/// A member that is there, is not null and passes.
#[derive(Drop)]
pub struct Required<'n, T>(pub &'n str, pub T);

impl<T: Test> Test for Required<'_, T> {
    ghost holds = { λ t. required t.0.now (T.Test.holds t.1) };

    fn accepts(&self, value: &Value) -> bool {
        match given(value, self.0) {
            Some(member) => self.1.accepts(member),
            None => false,
        }
    }
}

/// Whether a value is a whole number from `low` to `high`.
pub fn is_whole_within(value: &Value, low: u64, high: u64) -> bool
    ensures { result ≡ whole_within low high (view value.now) }
{
    match value.as_u64() {
        Some(n) => low <= n && n <= high,
        None => false,
    }
}

/// A whole number from the first to the second.
#[derive(Drop)]
pub struct WholeWithin(pub u64, pub u64);

impl Test for WholeWithin {
    ghost holds = { λ t. whole_within t.0 t.1 };

    fn accepts(&self, value: &Value) -> bool {
        is_whole_within(value, self.0, self.1)
    }
}

/// A whole number from -2^63 to 2^64 - 1.
#[derive(Drop)]
pub struct Whole;

impl Test for Whole {
    ghost holds = { λ _. whole };

    fn accepts(&self, value: &Value) -> bool {
        match value.as_number() {
            Some(n) => n.as_i128().is_some(),
            None => false,
        }
    }
}

/// What passes both.
#[derive(Drop)]
pub struct Both<A, B>(pub A, pub B);

impl<A: Test, B: Test> Test for Both<A, B> {
    ghost holds = { λ t d. A.Test.holds t.0 d && B.Test.holds t.1 d };

    fn accepts(&self, value: &Value) -> bool {
        self.0.accepts(value) && self.1.accepts(value)
    }
}

/// What passes one of the two.
#[derive(Drop)]
pub struct Or<A, B>(pub A, pub B);

impl<A: Test, B: Test> Test for Or<A, B> {
    ghost holds = { λ t d. A.Test.holds t.0 d || B.Test.holds t.1 d };

    fn accepts(&self, value: &Value) -> bool {
        self.0.accepts(value) || self.1.accepts(value)
    }
}

/// Every value.
#[derive(Drop)]
pub struct Anything;

impl Test for Anything {
    ghost holds = { λ _ _. true };

    fn accepts(&self, _value: &Value) -> bool {
        true
    }
}

/// No value.
#[derive(Drop)]
pub struct Nothing;

impl Test for Nothing {
    ghost holds = { λ _ _. false };

    fn accepts(&self, _value: &Value) -> bool {
        false
    }
}

/// What passes all of these tests.
#[macro_export]
macro_rules! all_of {
    () => { $crate::Anything };
    ($first:expr $(, $rest:expr)* $(,)?) => { $crate::Both($first, $crate::all_of!($($rest),*)) };
}

/// What passes one of these tests.
#[macro_export]
macro_rules! any_of {
    () => { $crate::Nothing };
    ($first:expr $(, $rest:expr)* $(,)?) => { $crate::Or($first, $crate::any_of!($($rest),*)) };
}

/// What passes the second where it passes the first.
#[derive(Drop)]
pub struct WhereAlso<A, B>(pub A, pub B);

impl<A: Test, B: Test> Test for WhereAlso<A, B> {
    ghost holds = { λ t. where_also (A.Test.holds t.0) (B.Test.holds t.1) };

    fn accepts(&self, value: &Value) -> bool {
        !self.0.accepts(value) || self.1.accepts(value)
    }
}
