//! The JSON value of some bytes, as a tree that borrows their texts.
//!
//! `json` reads the tree and looks for the last of a key that stands twice. It takes numbers of any size and leaves
//! them texts, so their sizes are checked here.

ghost use Rattle.std.specs.Prelude.{◌≡◌, IfOk, option_map, option_and_then};
ghost use Rattle.json.specs.Json.{if_last, value};
ghost use Rattle.json.specs.Lex.{tokens};
ghost use Rattle.json.specs.Value.{value_view, items_view, members_view};
ghost use Rattle.serde_json.specs.Find.{get, as_str, as_bool, as_number, as_u64};
ghost use Rattle.serde_json.specs.Read.{max_depth};
ghost use Rattle.wl_codec.specs.inner.Seen.{fits, items_fit, members_fit, json_data};
ghost use Rattle.wl_codec.specs.Value.{json_value};

use crate::number::{number_fits, unsigned_of};
use crate::scratch::Scratch;
use json::{Error, Reader, Value};
use std::alloc::Global;
use wl_types::Memory;

/// How deep arrays and objects may nest.
const MAX_DEPTH: usize = 127;

// ---- reading

fn tree_of<'a>(
    alloc: Global,
    text: &'a str,
    scratch: &'a mut Scratch,
) -> Result<Option<Value<'a>>, Memory>
    ensures { IfOk result (λ found. option_map value_view found
        ≡ option_and_then (λ p. if_last p.0 p.1) (value max_depth (tokens text.now))) }
{
    let mut reader = Reader::new(text, scratch.room()?)?;
    match Value::read(alloc, &mut reader, MAX_DEPTH) {
        Ok(value) => {
            if reader.next().is_some() {
                return Ok(None);
            }
            Ok(Some(value))
        }
        Err(Error::OutOfMemory) => Err(Memory),
        Err(_) => Ok(None),
    }
}

#[cycle(fit)]
fn numbers_fit(value: &Value<'_>) -> bool
    ensures { result ≡ fits (value_view value.now) }
{
    match value {
        Value::Number(text) => number_fits(text),
        Value::Array(items) => items_fit(items),
        Value::Object(members) => members_fit(members),
        _ => true,
    }
}

#[cycle(fit)]
fn items_fit(items: &Vec<Value<'_>>) -> bool
    ensures { result ≡ items_fit (items_view items.now.items) }
{
    for item in items {
        if !numbers_fit(item) {
            return false;
        }
    }
    true
}

#[cycle(fit)]
fn members_fit<'a>(members: &Vec<(&'a str, Value<'a>)>) -> bool
    ensures { result ≡ members_fit (members_view members.now.items) }
{
    for member in members {
        if !numbers_fit(&member.1) {
            return false;
        }
    }
    true
}

/// The JSON value of some bytes, if they have one.
pub(crate) fn value_of<'a>(
    alloc: Global,
    bytes: &'a [u8],
    scratch: &'a mut Scratch,
) -> Result<Option<Value<'a>>, Memory>
    ensures { IfOk result (λ found. option_map json_data found ≡ json_value bytes.now) }
{
    let Ok(text) = simdutf8::compat::from_utf8(bytes) else {
        return Ok(None);
    };
    match tree_of(alloc, text, scratch)? {
        Some(value) => {
            if numbers_fit(&value) {
                Ok(Some(value))
            } else {
                Ok(None)
            }
        }
        None => Ok(None),
    }
}

// ---- looking into a value

pub(crate) fn found_at<'v, 'a>(value: &'v Value<'a>, name: &str) -> Option<&'v Value<'a>>
    ensures { option_map (λ v. json_data v.now) result ≡ get name.now (json_data value.now) }
{
    value.get(name)
}

pub(crate) fn text_of<'a>(value: &Value<'a>) -> Option<&'a str>
    ensures { option_map (λ s. s.now) result ≡ as_str (json_data value.now) }
{
    match value {
        Value::String(text) => Some(*text),
        _ => None,
    }
}

pub(crate) fn bool_of(value: &Value<'_>) -> Option<bool>
    ensures { result ≡ as_bool (json_data value.now) }
{
    match value {
        Value::Bool(b) => Some(*b),
        _ => None,
    }
}

pub(crate) fn u64_of(value: &Value<'_>) -> Option<u64>
    ensures { result ≡ option_and_then as_u64 (as_number (json_data value.now)) }
{
    match value {
        Value::Number(text) => unsigned_of(text),
        _ => None,
    }
}
