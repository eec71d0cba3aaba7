// Names that the program doesn't have yet.
ghost use Rattle.std.specs.Prelude.{◌≡◌, ◌++◌, ◌∷◌, ◌<◌, ◌≤◌, true, slice_index, ℕ, List, [], length, map, replicate, Some, option_map, IfOk, OnOk, OnErr, IsTrue, string_bytes};
ghost use Rattle.std.specs.List.{Contains};
ghost use Rattle.std.specs.Char.{is_ascii_digit};
ghost use Rattle.std.specs.Str.{all_ascii_digits};
ghost use Rattle.fresh_names.specs.Kept.{uid_with};
ghost use Rattle.fresh_names.specs.Fresh.{Covers};
ghost use Rattle.fresh_names.specs.Uid.{underscores, without_underscores, digits_start, base_of, digits_of, postfix_in, digits_behind, uid_of, written, known_at, with_uid, is_later, is_later_than, raised_to, with_name, names_in, next_after, fresh_uid, fresh_name, with_names, with_fresh};

use itoa::Buffer;
use js_syntax::{Ident, SymbolId};
use scope_table::{Scoping, Unresolved};
use std::alloc::{AllocError, Global};
use std::collections::BTreeMap;
use std::marker::Model;

// How many `_` stand before a base, and the number behind it.
#[derive(Clone, Copy)]
struct Around {
    count: u64,
    postfix: u32,
}

impl Around {
    fn is_later(self, other: Around) -> bool
        ensures { (base : List ℕ) → result ≡ is_later (uid_with base self) (uid_with base other) }
    {
        other.count < self.count || self.count == other.count && other.postfix < self.postfix
    }
}

// ---- names, read

fn underscores(name: &str) -> usize
    ensures { result ≡ underscores name.now }
{
    name.as_bytes().iter().take_while(|c| **c == b'_').count()
}

fn without_underscores(name: &str) -> &str
    ensures { result.now ≡ without_underscores name.now }
{
    &name[underscores(name)..]
}

// Where the digits begin that a name ends with.
fn digits_start(name: &str) -> usize
    ensures start { result ≡ digits_start name.now }
    ensures digits { (k : ℕ) → result ≤ k → k < length name.now → is_ascii_digit (slice_index name.now k) ≡ true }
{
    let bytes = name.as_bytes();
    let mut start = bytes.len();
    while 0 < start && bytes[start - 1].is_ascii_digit() {
        start -= 1;
    }
    start
}

fn base(name: &str) -> &str
    ensures { result.now ≡ base_of name.now }
{
    let rest = without_underscores(name);
    &rest[..digits_start(rest)]
}

fn digits(name: &str) -> &str
    ensures digits { result.now ≡ digits_of name.now }
    ensures only { all_ascii_digits result.now ≡ true }
{
    let rest = without_underscores(name);
    &rest[digits_start(rest)..]
}

// The number that digits write; none where no fresh name has these.
fn postfix(digits: &str) -> Option<u32>
    requires { all_ascii_digits digits.now ≡ true }
    ensures { result ≡ postfix_in digits.now }
{
    if digits.is_empty() {
        return Some(1);
    }
    if digits.starts_with('0') || digits.len() > 10 {
        return None;
    }
    match digits.parse::<u32>() {
        Ok(postfix) if postfix != 1 => Some(postfix),
        _ => None,
    }
}

// What stands around the base of a name; none where no fresh name is the same.
fn read(name: &str) -> Option<Around>
    ensures { option_map (uid_with (base_of name.now)) result ≡ uid_of name.now }
{
    let count = underscores(name);
    if count == 0 {
        return None;
    }
    match postfix(digits(name)) {
        Some(postfix) => Some(Around {
            count: count as u64,
            postfix,
        }),
        None => None,
    }
}

// ---- and written

fn append_underscores(name: &mut String, count: u64) -> Result<(), AllocError>
    ensures { OnOk result (string_bytes name.new ≡ string_bytes name.old ++ replicate count 95) }
{
    for _i in 0..count {
        name.push('_')?;
    }
    Ok(())
}

fn append_postfix(name: &mut String, postfix: u32) -> Result<(), AllocError>
    ensures { OnOk result (string_bytes name.new ≡ string_bytes name.old ++ digits_behind postfix) }
{
    if postfix == 1 {
        return Ok(());
    }
    let mut buffer = Buffer::new();
    name.push_str(buffer.format(postfix))
}

fn written(alloc: Global, base: &str, around: Around) -> Result<String, AllocError>
    ensures { IfOk result (λ s. string_bytes s ≡ written (uid_with base.now around)) }
{
    let mut name = String::new(alloc);
    append_underscores(&mut name, around.count)?;
    name.push_str(base)?;
    append_postfix(&mut name, around.postfix)?;
    Ok(name)
}

// ---- the generator

/// Makes names that the program doesn't have, each at most once. It keeps the greatest of the taken names for each base.
pub struct UidGenerator {
    alloc: Global,
    known: BTreeMap<String, Around>,
}

impl Drop for UidGenerator {
    fn drop(self) {
        let UidGenerator { alloc: _, known: _ } = self;
    }
}

impl Model for UidGenerator {
    ghost use Rattle.std.specs.Prelude.{List, map};
    ghost use Rattle.fresh_names.specs.Uid.{Uid};
    ghost use Rattle.fresh_names.specs.Kept.{uid_told};

    ghost Value = { List Uid };

    ghost view = { λ g. map uid_told g.known.entries };
}

// The next name of a base behind those that are taken. One with 2^64 `_` would find no room in memory.
fn next_after(last: Option<Around>) -> Result<Around, AllocError>
    ensures { (base : List ℕ) → IfOk result (λ n. uid_with base n ≡ next_after base (option_map (uid_with base) last)) }
{
    let Some(last) = last else {
        return Ok(Around {
            count: 1,
            postfix: 1,
        });
    };
    if last.postfix < u32::MAX {
        return Ok(Around {
            count: last.count,
            postfix: last.postfix + 1,
        });
    }
    match last.count.checked_add(1) {
        Some(count) => Ok(Around { count, postfix: 2 }),
        None => Err(AllocError),
    }
}

impl UidGenerator {
    fn blank(alloc: Global) -> UidGenerator
        ensures { result ≡ [] }
    {
        UidGenerator {
            alloc,
            known: BTreeMap::new(alloc),
        }
    }

    /// The generator that knows the names of a scoping's symbols, and those that nothing declares.
    pub fn new(alloc: Global, scoping: &Scoping) -> Result<UidGenerator, AllocError>
        ensures known { IfOk result (λ g. g ≡ with_names (names_in scoping.now) []) }
        ensures covers { IfOk result (λ g. Covers g (names_in scoping.now)) }
    {
        let mut generator = UidGenerator::blank(alloc);
        generator.add_symbols(scoping)?;
        generator.add_unresolved(scoping.root_unresolved_references())?;
        Ok(generator)
    }

    fn add_symbols(&mut self, scoping: &Scoping) -> Result<(), AllocError>
        ensures { OnOk result (self.new ≡ with_names (map (λ x. x.name) scoping.now.symbols) self.old) }
    {
        let names = scoping.symbol_names(self.alloc)?;
        for name in &names {
            self.add(*name)?;
        }
        Ok(())
    }

    fn add_unresolved(&mut self, names: &[Unresolved]) -> Result<(), AllocError>
        ensures { OnOk result (self.new ≡ with_names (map (λ u. u.name) names.now) self.old) }
    {
        for unresolved in names {
            self.add(unresolved.name())?;
        }
        Ok(())
    }

    fn known_at(&self, base: &str) -> Option<Around>
        ensures { option_map (uid_with base.now) result ≡ known_at self.now base.now }
    {
        self.known.get(base).copied()
    }

    fn is_news(&self, base: &str, around: Around) -> bool
        ensures { result ≡ is_later_than (known_at self.now base.now) (uid_with base.now around) }
    {
        match self.known_at(base) {
            Some(known) => around.is_later(known),
            None => true,
        }
    }

    fn put(&mut self, base: &str, around: Around) -> Result<(), AllocError>
        ensures put { OnOk result (self.new ≡ with_uid (uid_with base.now around) self.old) }
        ensures refused { OnErr result (self.new ≡ self.old) }
    {
        let base = String::from_str(self.alloc, base)?;
        self.known.insert(base, around)?;
        Ok(())
    }

    fn raise(&mut self, base: &str, around: Around) -> Result<(), AllocError>
        ensures raised { OnOk result (self.new ≡ raised_to (Some (uid_with base.now around)) self.old) }
        ensures refused { OnErr result (self.new ≡ self.old) }
    {
        if self.is_news(base, around) {
            self.put(base, around)?;
        }
        Ok(())
    }

    /// Tells the generator a name that is taken. The only error is want of memory.
    pub fn add(&mut self, name: &str) -> Result<(), AllocError>
        ensures known { OnOk result (self.new ≡ with_name name.now self.old) }
        ensures covers { OnOk result ((taken : List (List ℕ)) → Covers self.old taken → Covers self.new (name.now ∷ taken)) }
        ensures refused { OnErr result (self.new ≡ self.old) }
    {
        match read(name) {
            Some(around) => {
                self.raise(base(name), around)?;
                Ok(())
            }
            None => Ok(()),
        }
    }

    /// A name that is like the one given and isn't taken. From then on it is. The only error is want of memory.
    pub fn create(&mut self, name: &str) -> Result<Ident, AllocError>
        ensures name { IfOk result (λ n. n ≡ fresh_name name.now self.old) }
        ensures known { OnOk result (self.new ≡ with_fresh name.now self.old) }
        ensures fresh { IfOk result (λ n. (taken : List (List ℕ)) → Covers self.old taken → ¬ (Contains taken n)) }
        ensures covers { IfOk result (λ n. (taken : List (List ℕ)) → Covers self.old taken → Covers self.new (n ∷ taken)) }
        ensures refused { OnErr result (self.new ≡ self.old) }
    {
        let base = base(name);
        let next = next_after(self.known_at(base))?;
        let fresh = written(self.alloc, base, next)?;
        self.put(base, next)?;
        Ok(Ident::new(fresh))
    }
}
