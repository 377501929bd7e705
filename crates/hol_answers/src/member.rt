//! The objects of answers, each sent to a serializer from its members, with no tree of values.
ghost use Rattle.std.specs.Prelude.{◌≡◌, OnOk};
ghost use Rattle.serde_json.specs.Data.{object, member, string};
ghost use Rattle.hol_orders.specs.Parts.{whole};
ghost use Rattle.hol_answers.specs.Content.{content_data, members_before, members_of};
ghost use Rattle.hol_answers.specs.Member.{integer, or_null};
ghost use Rattle.hol_answers.specs.Sent.{Sends, SendsFront};

use crate::to_json::ToJson;
use hol_io::BlobName;
use schema_model::{Name, Schemas as SchemaList};
use serde::Serializer;
use std::alloc::Global;

/// What a member of an object holds.
#[derive(Drop)]
pub(crate) enum Content<'a> {
    /// Nothing: `null`.
    Null,
    /// A truth value.
    Bool(bool),
    /// A number that is not negative.
    Number(u64),
    /// A number that may be negative.
    Integer(i64),
    /// A text.
    Text(&'a str),
    /// The name of a blob, as a text.
    Blob(&'a BlobName),
    /// The names of schemas, in their order.
    Schemas(&'a SchemaList),
}

impl<'a> Content<'a> {
    /// A number, or null where there is none.
    pub(crate) fn number_or_null(number: Option<u64>) -> Content<'a>
        ensures { content_data result ≡ or_null whole number }
    {
        match number {
            None => Content::Null,
            Some(number) => Content::Number(number),
        }
    }

    /// An ordinal as a number, or null where there is none.
    pub(crate) fn ordinal_or_null(ordinal: Option<u32>) -> Content<'a>
        ensures { content_data result ≡ or_null whole ordinal }
    {
        match ordinal {
            None => Content::Null,
            Some(ordinal) => Content::Number(u64::from(ordinal)),
        }
    }

    /// An integer, or null where there is none.
    pub(crate) fn integer_or_null(number: Option<i64>) -> Content<'a>
        ensures { content_data result ≡ or_null integer number }
    {
        match number {
            None => Content::Null,
            Some(number) => Content::Integer(number),
        }
    }

    /// A name as a text, or null where there is none.
    pub(crate) fn text_or_null(name: &'a Option<Name>) -> Content<'a>
        ensures { content_data result ≡ or_null string name.now }
    {
        match name {
            None => Content::Null,
            Some(name) => Content::Text(name.text()),
        }
    }
}

impl ToJson for Content<'_> {
    ghost use Rattle.hol_answers.specs.Content.{content_data};

    ghost json = { content_data };

    fn send<S: Serializer>(&self, alloc: Global, out: &mut S) -> Result<(), S::Error> {
        match self {
            Content::Null => out.unit(),
            Content::Bool(truth) => out.bool(*truth),
            Content::Number(number) => out.u64(*number),
            Content::Integer(number) => number.send(alloc, out),
            Content::Text(text) => out.str(text),
            Content::Blob(blob) => blob.send(alloc, out),
            Content::Schemas(schemas) => schemas.send(alloc, out),
        }
    }
}

/// Sends the object that has these members.
pub(crate) fn send_object<S: Serializer>(
    alloc: Global,
    members: &[(&str, Content<'_>)],
    out: &mut S,
) -> Result<(), S::Error>
    ensures { OnOk result (Sends (object (members_of members.now)) (S.written out.old) (S.written out.new)) }
{
    out.begin_map(Some(members.len()))?;
    send_members(alloc, members, out)?;
    out.end_map()
}

/// Sends the object that has these members, then one more and then the others.
pub(crate) fn send_object_around<T: ToJson, S: Serializer>(
    alloc: Global,
    front: &[(&str, Content<'_>)],
    name: &str,
    value: &T,
    back: &[(&str, Content<'_>)],
    out: &mut S,
) -> Result<(), S::Error>
    ensures { OnOk result (Sends (object (members_before front.now (member name.now (T.json value.now) (members_of back.now))))
        (S.written out.old) (S.written out.new)) }
{
    out.begin_map(Some(front.len() + 1 + back.len()))?;
    send_members(alloc, front, out)?;
    out.key(name)?;
    value.send(alloc, out)?;
    send_members(alloc, back, out)?;
    out.end_map()
}

// Sends the members, without the begin and the end of their object.
fn send_members<S: Serializer>(
    alloc: Global,
    members: &[(&str, Content<'_>)],
    out: &mut S,
) -> Result<(), S::Error>
    ensures { OnOk result (SendsFront members.now (S.written out.old) (S.written out.new)) }
{
    for member in members {
        out.key(member.0)?;
        member.1.send(alloc, out)?;
    }
    Ok(())
}
