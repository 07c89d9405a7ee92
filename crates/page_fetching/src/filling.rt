// The names on a page become values again.
ghost use Rattle.std.specs.Prelude.{◌≡◌, ℕ, List, [], ◌∷◌, IfOk, IsOkUnless, MatchOption};
ghost use Rattle.std.specs.Option.{option_copied, option_map};
ghost use Rattle.std.specs.FinMap as finite;
ghost use Rattle.causal_context.specs.Context.{has};
ghost use Rattle.dots.specs.Dot.{DotValue};
ghost use Rattle.dot_store.specs.Stores.{at_values, held_by};
ghost use Rattle.wire_form.specs.Page as form;
ghost use Rattle.sync_model.specs.Opened.{held_in};
ghost use Rattle.sync_model.specs.Filled.{checked, fill_values, fill_fields, fill_entries, then_fields, then_entries, filled};
ghost use Rattle.sync_model.specs.Fetch.{entries_of};
ghost use Rattle.page_fetching.specs.Adding.{made_of, AddsPart, fill_dot};

use causal_context::Context;
use causal_join::Fields;
use dot_store::{DotFun, DotStore};
use dots::{Dot, Field, Key, Refusal, Value};
use hash_path::PathHash;
use prefix_digest::{FrozenMap, value_digest};
use std::alloc::Allocator;
use wire_form::{NamedFields, Names, Page};

// What is held at a dot of a field.
fn held_at<'a, A: Allocator + Copy>(
    own: Option<&'a DotFun<Value<A>, A>>,
    dot: Dot,
) -> Option<&'a Value<A>>
    ensures { option_copied result ≡ held_by at_values (option_copied own.entry) tt dot }
{
    own?.get(dot)
}

// Puts the value of a dot behind the others. False where it is not that of the name.
fn add_value<A: Allocator + Copy>(
    alloc: A,
    values: &mut Vec<(Dot, Value<A>), A>,
    named: &(Dot, [u8; 32]),
    value: &Value<A>,
) -> Result<bool, Refusal>
    ensures ok { IfOk result (λ right. (left : List (List ℕ)) → AddsPart right values.old.items values.new.items
        (λ rest. checked named.now.0 named.now.1 value.now (rest left)) left) }
    ensures err { IsOkUnless result Refusal.OutOfMemory }
{
    let (dot, name) = named;
    if value_digest(value) != *name {
        return Ok(false);
    }
    values.push((*dot, value.copy(alloc)?))?;
    Ok(true)
}

// Takes the first of the items, if there is one.
fn take_first<'a, T>(items: &mut &'a [T]) -> Option<&'a T>
    ensures { MatchOption result (items.old.now ≡ []) (λ item. items.old.now ≡ item.now ∷ items.new.now) }
{
    let (first, rest) = items.split_first()?;
    *items = rest;
    Some(first)
}

// Puts the value of a dot behind the others, if it is to have one: what is held there where the dot was seen, and else the next of
// the values sent. False where there is none to be sent, or where the value is not that of the name.
fn add_dot<A: Allocator + Copy>(
    alloc: A,
    values: &mut Vec<(Dot, Value<A>), A>,
    own: Option<&DotFun<Value<A>, A>>,
    named: &(Dot, [u8; 32]),
    seen: &Context<A>,
    sent: &mut &[Value<A>],
) -> Result<bool, Refusal>
    ensures ok { IfOk result (λ right. AddsPart right values.old.items values.new.items
        (fill_dot (has seen.now) (held_by at_values (option_copied own.entry) tt) named.now sent.old.now) sent.new.now) }
    ensures err { IsOkUnless result Refusal.OutOfMemory }
{
    if seen.contains(named.0) {
        let Some(value) = held_at(own, named.0) else {
            return Ok(true);
        };
        return add_value(alloc, values, named, value);
    }
    let Some(value) = take_first(sent) else {
        return Ok(false);
    };
    add_value(alloc, values, named, value)
}

// The values of a field. None where a dot has none, or not that of its name.
fn fill_names<A: Allocator + Copy>(
    alloc: A,
    own: Option<&DotFun<Value<A>, A>>,
    names: &Names<A>,
    seen: &Context<A>,
    sent: &mut &[Value<A>],
) -> Result<Option<DotFun<Value<A>, A>>, Refusal>
    ensures ok { IfOk result (λ made. made_of made sent.new.now
        ≡ fill_values (has seen.now) (held_by at_values (option_copied own.entry) tt) names.now sent.old.now) }
    ensures err { IsOkUnless result Refusal.OutOfMemory }
{
    let entries = names.entries();
    let mut values = Vec::with_capacity(alloc, entries.len())?;
    for named in entries {
        if !add_dot(alloc, &mut values, own, named, seen, sent)? {
            return Ok(None);
        }
    }
    match DotFun::from_entries(values) {
        Some(values) => Ok(Some(values)),
        None => unreachable!(),
    }
}

// What is held at a field of a key.
fn field_at<'a, A: Allocator + Copy>(
    own: Option<&'a Fields<A>>,
    field: &Field<A>,
) -> Option<&'a DotFun<Value<A>, A>>
    ensures { (d : DotValue) → held_by at_values (option_copied result) tt d ≡ held_in (option_copied own.entry) field.now d }
{
    own?.get(field)
}

// Puts a field behind the others, if it holds a value then. False where a dot has none, or not that of its name.
fn add_field<A: Allocator + Copy>(
    alloc: A,
    fields: &mut Vec<(Field<A>, DotFun<Value<A>, A>), A>,
    own: Option<&Fields<A>>,
    named: &(Field<A>, Names<A>),
    seen: &Context<A>,
    sent: &mut &[Value<A>],
) -> Result<bool, Refusal>
    ensures ok { IfOk result (λ right. AddsPart right fields.old.items fields.new.items
        (λ rest. then_fields named.now.0 rest (fill_values (has seen.now) (held_in (option_copied own.entry) named.now.0) named.now.1 sent.old.now)) sent.new.now) }
    ensures err { IsOkUnless result Refusal.OutOfMemory }
{
    let (field, names) = named;
    let held = field_at(own, field);
    let Some(values) = fill_names(alloc, held, names, seen, sent)? else {
        return Ok(false);
    };
    if values.is_empty() {
        drop(values);
        return Ok(true);
    }
    let field = match field.copy(alloc) {
        Ok(field) => field,
        Err(refusal) => {
            drop(values);
            return Err(refusal);
        }
    };
    fields.push((field, values))?;
    Ok(true)
}

// The fields of a key that hold a value. None where a dot has none, or not that of its name.
fn fill_named<A: Allocator + Copy>(
    alloc: A,
    own: Option<&Fields<A>>,
    named: &NamedFields<A>,
    seen: &Context<A>,
    sent: &mut &[Value<A>],
) -> Result<Option<Fields<A>>, Refusal>
    ensures ok { IfOk result (λ made. made_of made sent.new.now
        ≡ fill_fields (has seen.now) (held_in (option_copied own.entry)) named.now sent.old.now) }
    ensures err { IsOkUnless result Refusal.OutOfMemory }
{
    let entries = named.entries();
    let mut fields = Vec::with_capacity(alloc, entries.len())?;
    for field in entries {
        if !add_field(alloc, &mut fields, own, field, seen, sent)? {
            return Ok(None);
        }
    }
    match Fields::from_entries(fields) {
        Some(fields) => Ok(Some(fields)),
        None => unreachable!(),
    }
}

// Puts a key with its fields behind the others. False where a dot has no value, or not that of its name.
fn add_entry<H: PathHash, A: Allocator + Copy>(
    alloc: A,
    entries: &mut Vec<(Key<A>, Fields<A>), A>,
    own: &FrozenMap<H, A>,
    key: &Key<A>,
    named: &NamedFields<A>,
    seen: &Context<A>,
    sent: &mut &[Value<A>],
) -> Result<bool, Refusal>
    ensures ok { IfOk result (λ right. AddsPart right entries.old.items entries.new.items
        (λ rest. then_entries key.now rest (fill_fields (has seen.now) (held_in (finite.get own.now.map key.now)) named.now sent.old.now)) sent.new.now) }
    ensures err { IsOkUnless result Refusal.OutOfMemory }
{
    let Some(fields) = fill_named(alloc, own.lookup(key), named, seen, sent)? else {
        return Ok(false);
    };
    let key = match key.copy(alloc) {
        Ok(key) => key,
        Err(refusal) => {
            drop(fields);
            return Err(refusal);
        }
    };
    entries.push((key, fields))?;
    Ok(true)
}

// The entries of several keys. None where a dot has no value, or not that of its name.
fn fill_keys<H: PathHash, A: Allocator + Copy>(
    alloc: A,
    own: &FrozenMap<H, A>,
    named: &[(Key<A>, NamedFields<A>)],
    seen: &Context<A>,
    sent: &mut &[Value<A>],
) -> Result<Option<Vec<(Key<A>, Fields<A>), A>>, Refusal>
    ensures ok { IfOk result (λ made. made_of (option_map (λ es. es.items) made) sent.new.now
        ≡ fill_entries (has seen.now) own.now.map named.now sent.old.now) }
    ensures err { IsOkUnless result Refusal.OutOfMemory }
{
    let mut entries = Vec::with_capacity(alloc, named.len())?;
    for (key, fields) in named {
        if !add_entry(alloc, &mut entries, own, key, fields, seen, sent)? {
            return Ok(None);
        }
    }
    Ok(Some(entries))
}

// The entries of the page of one key. None where a dot has no value, or not that of its name.
fn fill_one_key<H: PathHash, A: Allocator + Copy>(
    alloc: A,
    own: &FrozenMap<H, A>,
    key: &Key<A>,
    named: &NamedFields<A>,
    seen: &Context<A>,
    sent: &mut &[Value<A>],
) -> Result<Option<Vec<(Key<A>, Fields<A>), A>>, Refusal>
    ensures ok { IfOk result (λ made. made_of (option_map (λ es. es.items) made) sent.new.now
        ≡ fill_entries (has seen.now) own.now.map ((key.now, named.now) ∷ []) sent.old.now) }
    ensures err { IsOkUnless result Refusal.OutOfMemory }
{
    let mut entries = Vec::with_capacity(alloc, 1)?;
    if !add_entry(alloc, &mut entries, own, key, named, seen, sent)? {
        return Ok(None);
    }
    Ok(Some(entries))
}

// The entries of a page, of the first of the values that came with it.
fn fill_some<H: PathHash, A: Allocator + Copy>(
    alloc: A,
    own: &FrozenMap<H, A>,
    page: &Page<A>,
    seen: &Context<A>,
    sent: &mut &[Value<A>],
) -> Result<Option<Vec<(Key<A>, Fields<A>), A>>, Refusal>
    ensures ok { IfOk result (λ made. made_of (option_map (λ es. es.items) made) sent.new.now
        ≡ fill_entries (has seen.now) own.now.map (entries_of (form.value_of page.now)) sent.old.now) }
    ensures err { IsOkUnless result Refusal.OutOfMemory }
{
    match page {
        Page::OneKey(key, named) => fill_one_key(alloc, own, key, named, seen, sent),
        Page::Keys(named) => fill_keys(alloc, own, named, seen, sent),
        Page::Branch(_) => Ok(Some(Vec::new(alloc))),
    }
}

/// The entries of a page with values in the place of their names: of a dot that was seen the value that the own map holds at its
/// key and field, and of any other the next of the values that came with the page. A dot that was seen and that the own map does
/// not hold there is left out. None where a value is not of its name, or they are not as many. Takes time and memory in the page
/// and in the values that it names, each of which is hashed, and a look-up for each key.
/// Its only refusal is OutOfMemory.
pub(crate) fn fill_page<H: PathHash, A: Allocator + Copy>(
    alloc: A,
    own: &FrozenMap<H, A>,
    page: &Page<A>,
    seen: &Context<A>,
    values: &[Value<A>],
) -> Result<Option<Vec<(Key<A>, Fields<A>), A>>, Refusal>
    ensures ok { IfOk result (λ made. option_map (λ es. es.items) made
        ≡ filled (has seen.now) own.now.map (entries_of (form.value_of page.now)) values.now) }
    ensures err { IsOkUnless result Refusal.OutOfMemory }
{
    let mut sent = values;
    let Some(entries) = fill_some(alloc, own, page, seen, &mut sent)? else {
        return Ok(None);
    };
    if !sent.is_empty() {
        return Ok(None);
    }
    Ok(Some(entries))
}
