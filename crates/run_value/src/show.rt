// Showing values to the host.
ghost use Rattle.std.specs.Prelude.{◌≡◌, ◌∷◌, IfOk, length, map};
ghost use Rattle.js_meaning.specs.Show.{number_of, holds_nothing, show_content, error_sort};
ghost use Rattle.run_value.specs.View.{value_of, error_of};
ghost use Rattle.run_value.specs.ShownView.{sort_of, shown_of};
ghost use Rattle.run_value.specs.Showing.{values_of, ShowsEach, ShowsOne, ShowsParts, ShowsOwn};

use crate::shown::{Parts, Shown, Sort};
use crate::{Content, ErrorKind, Value, has_identity};
use std::alloc::{AllocError, Global};
use std::rc::Rc;

// The number under which an own object was shown.
fn number_of(number: usize, seen: &[Value]) -> Option<usize>
    ensures { result ≡ number_of number (values_of seen.now) 0 }
{
    for (i, value) in seen.iter().enumerate() {
        if has_identity(value, number) {
            return Some(i);
        }
    }
    None
}

fn error_sort(kind: ErrorKind) -> Sort
    ensures { sort_of result ≡ error_sort (error_of kind) }
{
    match kind {
        ErrorKind::TypeError => Sort::ATypeError,
        ErrorKind::ReferenceError => Sort::AReferenceError,
    }
}

// An own object that holds nothing.
fn show_bare<'a>(
    alloc: Global,
    number: usize,
    value: &Value<'a>,
    sort: Sort,
    seen: &mut Vec<Value<'a>>,
) -> Result<Shown, AllocError>
    ensures shown { IfOk result (λ x. ShowsOwn number (value_of value.now) (sort_of sort) holds_nothing (values_of seen.old.items) (shown_of x) (values_of seen.new.items)) }
{
    match number_of(number, seen.as_slice()) {
        Some(n) => Ok(Shown::Again(n)),
        None => {
            let n = seen.len();
            let value = value.copy()?;
            seen.push(value)?;
            let parts = Parts::new(Vec::new(alloc), Vec::new(alloc));
            Ok(Shown::First(n, sort, parts))
        }
    }
}

// An own object and what it holds.
#[cycle(show)]
fn show_full<'a>(
    alloc: Global,
    number: usize,
    value: &Value<'a>,
    sort: Sort,
    content: &Content<'a>,
    seen: &mut Vec<Value<'a>>,
) -> Result<Shown, AllocError>
    ensures shown { IfOk result (λ x. ShowsOwn number (value_of value.now) (sort_of sort) (show_content content.now) (values_of seen.old.items) (shown_of x) (values_of seen.new.items)) }
{
    match number_of(number, seen.as_slice()) {
        Some(n) => Ok(Shown::Again(n)),
        None => {
            let n = seen.len();
            let value = value.copy()?;
            seen.push(value)?;
            let parts = show_content(alloc, content, seen)?;
            Ok(Shown::First(n, sort, parts))
        }
    }
}

/// Shows a value: `seen` are the own objects that were shown, in order.
#[cycle(show)]
pub fn show_value<'a>(
    alloc: Global,
    value: &Value<'a>,
    seen: &mut Vec<Value<'a>>,
) -> Result<Shown, AllocError>
    ensures shown { IfOk result (λ x. ShowsOne (value_of value.now) (values_of seen.old.items) (shown_of x) (values_of seen.new.items)) }
{
    match value {
        Value::Plain(plain) => {
            let plain = plain.copy()?;
            Ok(Shown::Plainly(plain))
        }
        Value::Closure(number, ..) => show_bare(alloc, *number, value, Sort::AFunction, seen),
        Value::Object(number, content) => {
            show_full(alloc, *number, value, Sort::AnObject, content, seen)
        }
        Value::Array(number, content) => {
            show_full(alloc, *number, value, Sort::AnArray, content, seen)
        }
        Value::Error(number, kind) => show_bare(alloc, *number, value, error_sort(*kind), seen),
    }
}

fn copy_keys(alloc: Global, keys: &[Rc<String>]) -> Result<Vec<Rc<String>>, AllocError>
    ensures { IfOk result (λ v. map (λ k. k.value) v.items ≡ map (λ k. k.value) keys.now) }
{
    let mut copies = Vec::new(alloc);
    for key in keys {
        let key = key.clone()?;
        copies.push(key)?;
    }
    Ok(copies)
}

#[cycle(show)]
fn show_content<'a>(
    alloc: Global,
    content: &Content<'a>,
    seen: &mut Vec<Value<'a>>,
) -> Result<Parts, AllocError>
    ensures shown { IfOk result (λ x. ShowsParts content.now (values_of seen.old.items) x (values_of seen.new.items)) }
{
    let (keys, values) = content.parts();
    let keys = copy_keys(alloc, keys)?;
    let values = show_values(alloc, values, seen)?;
    Ok(Parts::new(keys, values))
}

fn in_front(first: Shown, others: Vec<Shown>) -> Result<Vec<Shown>, AllocError>
    ensures { IfOk result (λ v. v.items ≡ first ∷ others.items) }
{
    let mut all = others;
    all.insert(0, first)?;
    Ok(all)
}

#[cycle(show)]
fn show_values<'a>(
    alloc: Global,
    values: &[Value<'a>],
    seen: &mut Vec<Value<'a>>,
) -> Result<Vec<Shown>, AllocError>
    ensures shown { IfOk result (λ v. ShowsEach values.now (values_of seen.old.items) v.items (values_of seen.new.items)) }
{
    match values {
        [first, others @ ..] => {
            let first = show_value(alloc, first, seen)?;
            let others = show_values(alloc, others, seen)?;
            in_front(first, others)
        }
        [] => Ok(Vec::new(alloc)),
    }
}
