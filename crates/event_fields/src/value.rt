//! A field with its value.
ghost use Rattle.std.specs.Prelude.{◌≡◌, IfOk, IsTrue};
ghost use Rattle.event_fields.specs.Values.{if_name, is_value, text_of, value_of};

use crate::field::Field;
use plain_model::{Items, NoMemory, Text};
use std::alloc::Global;
use std::marker::Model;
use stream_fields::{FieldFault, read_name};

/// A field, and a text that may be its value: the name of a branch or a tag where it is one of these, and for a comment any text.
#[derive(Drop)]
pub struct FieldValue {
    field: Field,
    text: Text,
}

impl Model for FieldValue {
    ghost use Rattle.std.specs.Prelude.{IsTrue};
    ghost use Rattle.event_fields.specs.Values.{PlainValue, is_value};

    ghost Value = { PlainValue };

    ghost view = { λ v. record {
      field = v.field;
      text = v.text;
    } };

    ghost invariant = { λ v. IsTrue (is_value v.field v.text) };
}

// The name that these bytes are.
#[tactic(auto, unfolding(plain_model::specs::Fields::name_in))]
fn name_of(alloc: Global, text: &[u8]) -> Result<Option<Text>, NoMemory>
    ensures { IfOk result (λ name. name ≡ if_name text.now) }
{
    match read_name(alloc, text) {
        Ok(name) => Ok(Some(name)),
        Err(FieldFault::Memory) => Err(NoMemory),
        Err(_) => Ok(None),
    }
}

// The text, if it may be the value of the field.
fn text_of(alloc: Global, field: Field, text: &[u8]) -> Result<Option<Text>, NoMemory>
    ensures { IfOk result (λ value. value ≡ text_of field text.now) }
{
    match field {
        Field::Comment => Ok(Some(Items::of(alloc, text)?)),
        Field::Branch => name_of(alloc, text),
        Field::Name => name_of(alloc, text),
    }
}

impl FieldValue {
    /// The value of a field that a text is, if it may be one.
    pub fn of(alloc: Global, field: Field, text: &[u8]) -> Result<Option<FieldValue>, NoMemory>
        ensures { IfOk result (λ value. value ≡ value_of field text.now) }
    {
        match text_of(alloc, field, text)? {
            Some(text) => Ok(Some(FieldValue { field, text })),
            None => Ok(None),
        }
    }

    pub fn field(&self) -> Field
        ensures { result ≡ self.now.field }
    {
        self.field
    }

    pub fn text(&self) -> &Text
        ensures text { result.now ≡ self.now.text }
        ensures fits { IsTrue (is_value self.now.field result.now) }
    {
        &self.text
    }
}
