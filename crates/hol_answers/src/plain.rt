//! JSON values that can be written.
ghost use Rattle.std.specs.Prelude.{◌≡◌};
ghost use Rattle.hol_answers.specs.Plain.{IsPlain};

use serde_json::Value;
use std::marker::Model;

/// A JSON value in which no number has a fraction or an exponent.
#[derive(Drop)]
pub struct PlainValue {
    value: Value,
}

impl Model for PlainValue {
    ghost use Rattle.serde_json.specs.declared.value.Value as json;
    ghost use Rattle.serde_json.specs.contracts.value.Value.{the_row};
    ghost use Rattle.hol_answers.specs.Plain.{IsPlain};

    ghost Value = { json.Value };

    ghost coded = { the_row.coded };

    ghost view = { λ plain. plain.value };

    ghost invariant = { λ plain. IsPlain plain.value };
}

impl PlainValue {
    /// The value, in which no number has a fraction or an exponent.
    pub fn new(value: Value) -> PlainValue
        requires { IsPlain value }
        ensures { result ≡ value }
    {
        PlainValue { value }
    }

    /// The value, as it is to be written: no number in it has a fraction or an exponent.
    pub fn value(&self) -> &Value
        ensures value { result.now ≡ self.now }
        ensures plain { IsPlain result.now }
    {
        &self.value
    }
}
