//! What stands in answers as JSON, sent to a serializer with no tree of values.
use crate::plain::PlainValue;
use hol_io::{BlobName, name_text};
use hol_varint::List;
use schema_model::{Name, Schema};
use serde::{Serialize, Serializer};
use serde_json::Number as JsonNumber;
use std::alloc::Global;

/// What has a JSON value in answers.
pub(crate) trait ToJson: Drop {
    ghost use Rattle.std.specs.Prelude.{OnOk};
    ghost use Rattle.serde_json.specs.Data.{Data};
    ghost use Rattle.hol_answers.specs.Sent.{Sends};

    // Its JSON.
    ghost json: { Self → Data };

    /// Sends its JSON. Memory is taken for the name of a blob alone.
    fn send<S: Serializer>(&self, alloc: Global, out: &mut S) -> Result<(), S::Error>
        ensures { OnOk result (Sends (json self.now) (S.written out.old) (S.written out.new)) };
}

impl ToJson for u32 {
    ghost use Rattle.hol_orders.specs.Parts.{whole};

    ghost json = { whole };

    fn send<S: Serializer>(&self, _alloc: Global, out: &mut S) -> Result<(), S::Error> {
        out.u64(u64::from(*self))
    }
}

impl ToJson for u64 {
    ghost use Rattle.hol_orders.specs.Parts.{whole};

    ghost json = { whole };

    fn send<S: Serializer>(&self, _alloc: Global, out: &mut S) -> Result<(), S::Error> {
        out.u64(*self)
    }
}

impl ToJson for i64 {
    ghost use Rattle.hol_answers.specs.Member.{integer};

    ghost json = { integer };

    fn send<S: Serializer>(&self, _alloc: Global, out: &mut S) -> Result<(), S::Error> {
        JsonNumber::from(*self).serialize(out)
    }
}

impl ToJson for bool {
    ghost use Rattle.serde_json.specs.Data.{boolean};

    ghost json = { boolean };

    fn send<S: Serializer>(&self, _alloc: Global, out: &mut S) -> Result<(), S::Error> {
        out.bool(*self)
    }
}

impl ToJson for Name {
    ghost use Rattle.serde_json.specs.Data.{string};

    ghost json = { string };

    fn send<S: Serializer>(&self, _alloc: Global, out: &mut S) -> Result<(), S::Error> {
        out.str(self.text())
    }
}

// A schema is told by its name.
impl ToJson for Schema {
    ghost use Rattle.serde_json.specs.Data.{string};

    ghost json = { λ schema. string schema.name };

    fn send<S: Serializer>(&self, _alloc: Global, out: &mut S) -> Result<(), S::Error> {
        out.str(self.name.text())
    }
}

impl ToJson for PlainValue {
    ghost use Rattle.serde_json.specs.View.{view};

    ghost json = { view };

    fn send<S: Serializer>(&self, _alloc: Global, out: &mut S) -> Result<(), S::Error> {
        self.value().serialize(out)
    }
}

impl ToJson for BlobName {
    ghost use Rattle.hol_answers.specs.Reply.{blob_item};

    ghost json = { blob_item };

    fn send<S: Serializer>(&self, alloc: Global, out: &mut S) -> Result<(), S::Error> {
        match name_text(alloc, self) {
            Ok(text) => out.str(text.as_str()),
            Err(_) => Err(out.custom("memory")),
        }
    }
}

// Null where there is none.
impl<T: ToJson> ToJson for Option<T> {
    ghost use Rattle.hol_answers.specs.Member.{or_null};

    ghost json = { or_null T.json };

    fn send<S: Serializer>(&self, alloc: Global, out: &mut S) -> Result<(), S::Error> {
        match self {
            None => out.unit(),
            Some(thing) => thing.send(alloc, out),
        }
    }
}

// A list of the two.
impl<A: ToJson, B: ToJson> ToJson for (A, B) {
    ghost use Rattle.hol_orders.specs.Parts.{pair};

    ghost json = { λ both. pair (A.json both.0) (B.json both.1) };

    fn send<S: Serializer>(&self, alloc: Global, out: &mut S) -> Result<(), S::Error> {
        out.begin_seq(Some(2))?;
        self.0.send(alloc, out)?;
        self.1.send(alloc, out)?;
        out.end_seq()
    }
}

// A list of the items, in their order.
impl<T: ToJson> ToJson for List<T> {
    ghost use Rattle.hol_answers.specs.Member.{list_of};

    ghost json = { list_of T.json };

    fn send<S: Serializer>(&self, alloc: Global, out: &mut S) -> Result<(), S::Error> {
        let items = self.as_slice();
        out.begin_seq(Some(items.len()))?;
        for item in items {
            item.send(alloc, out)?;
        }
        out.end_seq()
    }
}
