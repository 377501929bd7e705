//! The JSON object of each answer, written by serde's events.
ghost use Rattle.std.specs.Prelude.{OnOk, List, [], ◌∷◌, codes};
ghost use Rattle.serde_json.specs.Data.{string};
ghost use Rattle.serde_json.specs.View.{view};
ghost use Rattle.hol_orders.specs.Parts.{whole};
ghost use Rattle.hol_answers.specs.declared.reply.Reply.TheVariants as said;
ghost use Rattle.hol_answers.specs.Member.{integer, says};
ghost use Rattle.hol_answers.specs.Reply.{reply_data};
ghost use Rattle.hol_answers.specs.Sent.{Sends};

use crate::member::Content::{Bool, Integer, Number, Schemas, Text};
use crate::member::{Content, send_object, send_object_around};
use crate::plain::PlainValue;
use crate::reply::{Change, Made, Progress, Reply};
use crate::to_json::ToJson;
use blob_frame::Header;
use schema_model::Names;
use serde::{Described, Serialize, Serializer};
use std::alloc::Global;

/// An answer as what its line shows.
#[derive(Drop)]
pub(crate) struct ReplyView<'a> {
    pub(crate) alloc: Global,
    pub(crate) reply: &'a Reply,
}

impl Described for ReplyView<'_> {
    ghost use Rattle.hol_answers.specs.Reply.{reply_data};
    ghost use Rattle.hol_answers.specs.Sent.{Sends};

    ghost writes = { λ view. Sends (reply_data view.reply.now) };
}

impl Serialize for ReplyView<'_> {
    fn serialize<S: Serializer>(&self, out: &mut S) -> Result<(), S::Error> {
        let alloc = self.alloc;
        match self.reply {
            Reply::Head(header) => send_head(alloc, header, out),
            Reply::Model(types) => send_ok(alloc, "model", "types", types, out),
            Reply::Cycle {
                changed,
                published,
                version,
            } => send_cycle(alloc, changed, *published, *version, out),
            Reply::Restore { tag, version } => {
                send_tagged(alloc, "restore", *tag, "version", version, out)
            }
            Reply::Load(tag) => send_ok(alloc, "load", "tag", tag, out),
            Reply::Step(tag) => send_ok(alloc, "step", "tag", tag, out),
            Reply::Index(keys) => send_before_ok(alloc, "keys", keys, "index", out),
            Reply::Get { ordinal, row } => send_found(alloc, "get", *ordinal, row, out),
            Reply::Find(ordinals) => send_ok(alloc, "find", "ordinals", ordinals, out),
            Reply::Live(ordinals) => send_ok(alloc, "live", "ordinals", ordinals, out),
            Reply::Row(row) => send_ok(alloc, "row", "row", row, out),
            Reply::Has(there) => send_before_ok(alloc, "has", there, "has", out),
            Reply::At(value) => send_ok(alloc, "at", "value", value, out),
            Reply::Past(rows) => send_ok(alloc, "past", "rows", rows, out),
            Reply::Check { compared, states } => send_check(alloc, *compared, *states, out),
            Reply::Stat { tag, types } => send_tagged(alloc, "stat", *tag, "types", types, out),
            Reply::Make(made) => send_make(alloc, made, out),
            Reply::Grow(types) => send_ok(alloc, "grow", "types", types, out),
            Reply::Plan(blobs) => send_before_ok(alloc, "blobs", blobs, "plan", out),
            Reply::Goto(progress) => send_goto(alloc, progress, out),
            Reply::Change(change) => send_change(alloc, change, out),
            Reply::WalkIndex(keys) => send_before_ok(alloc, "keys", keys, "walkindex", out),
            Reply::WalkFind(ordinals) => send_ok(alloc, "walkfind", "ordinals", ordinals, out),
            Reply::History(kept) => send_before_ok(alloc, "kept", kept, "history", out),
            Reply::Was(row) => send_ok(alloc, "was", "row", row, out),
            Reply::WasGet { ordinal, row } => send_found(alloc, "wasget", *ordinal, row, out),
            Reply::Refused(refusal) => refusal.send(alloc, out),
        }
    }
}

// An answer that has one more member behind its word.
fn send_ok<T: ToJson, S: Serializer>(
    alloc: Global,
    word: &str,
    name: &str,
    value: &T,
    out: &mut S,
) -> Result<(), S::Error>
    ensures { OnOk result (Sends (says ((codes "ok", string word.now) ∷ (name.now, T.json value.now) ∷ [])) (S.written out.old) (S.written out.new)) }
{
    send_object_around(alloc, &[("ok", Text(word))], name, value, &[], out)
}

// An answer that has one more member before its word.
fn send_before_ok<T: ToJson, S: Serializer>(
    alloc: Global,
    name: &str,
    value: &T,
    word: &str,
    out: &mut S,
) -> Result<(), S::Error>
    ensures { OnOk result (Sends (says ((name.now, T.json value.now) ∷ (codes "ok", string word.now) ∷ [])) (S.written out.old) (S.written out.new)) }
{
    send_object_around(alloc, &[], name, value, &[("ok", Text(word))], out)
}

// An answer that tells a tag, and one more member behind it.
fn send_tagged<T: ToJson, S: Serializer>(
    alloc: Global,
    word: &str,
    tag: i64,
    name: &str,
    value: &T,
    out: &mut S,
) -> Result<(), S::Error>
    ensures { OnOk result (Sends (says ((codes "ok", string word.now) ∷ (codes "tag", integer tag) ∷ (name.now, T.json value.now) ∷ []))
        (S.written out.old) (S.written out.new)) }
{
    let front = [("ok", Text(word)), ("tag", Integer(tag))];
    send_object_around(alloc, &front, name, value, &[], out)
}

// An answer that shows a row by its ordinal and as its record.
fn send_found<S: Serializer>(
    alloc: Global,
    word: &str,
    ordinal: u32,
    row: &PlainValue,
    out: &mut S,
) -> Result<(), S::Error>
    ensures { OnOk result (Sends (says ((codes "ok", string word.now) ∷ (codes "ordinal", whole ordinal) ∷ (codes "row", view row.now) ∷ []))
        (S.written out.old) (S.written out.new)) }
{
    let front = [("ok", Text(word)), ("ordinal", Number(u64::from(ordinal)))];
    send_object_around(alloc, &front, "row", row, &[], out)
}

fn send_head<S: Serializer>(alloc: Global, header: &Header, out: &mut S) -> Result<(), S::Error>
    ensures { OnOk result (Sends (reply_data (said.Head header.now)) (S.written out.old) (S.written out.new)) }
{
    let front = [
        ("destination", Integer(header.destination)),
        ("format", Number(1030)),
        ("ok", Text("head")),
        ("origin", Integer(header.origin)),
        ("schemas", Schemas(&header.schemas)),
    ];
    send_object_around(alloc, &front, "tags", &header.tags, &[], out)
}

fn send_cycle<S: Serializer>(
    alloc: Global,
    changed: &Names,
    published: bool,
    version: u64,
    out: &mut S,
) -> Result<(), S::Error>
    ensures { OnOk result (Sends (reply_data (said.Cycle changed.now published version)) (S.written out.old) (S.written out.new)) }
{
    let back = [
        ("ok", Text("cycle")),
        ("published", Bool(published)),
        ("version", Number(version)),
    ];
    send_object_around(alloc, &[], "changed", changed, &back, out)
}

fn send_check<S: Serializer>(
    alloc: Global,
    compared: u64,
    states: u64,
    out: &mut S,
) -> Result<(), S::Error>
    ensures { OnOk result (Sends (reply_data (said.Check compared states)) (S.written out.old) (S.written out.new)) }
{
    let members = [
        ("compared", Number(compared)),
        ("ok", Text("check")),
        ("states", Number(states)),
    ];
    send_object(alloc, &members, out)
}

fn send_goto<S: Serializer>(alloc: Global, progress: &Progress, out: &mut S) -> Result<(), S::Error>
    ensures { OnOk result (Sends (reply_data (said.Goto progress.now)) (S.written out.old) (S.written out.new)) }
{
    let front = [
        ("applied", Number(progress.applied)),
        ("of", Number(progress.of)),
        ("ok", Text("goto")),
    ];
    let back = [("tag", Content::integer_or_null(progress.tag))];
    send_object_around(alloc, &front, "refused", &progress.refused, &back, out)
}

fn send_change<S: Serializer>(alloc: Global, change: &Change, out: &mut S) -> Result<(), S::Error>
    ensures { OnOk result (Sends (reply_data (said.Change change.now)) (S.written out.old) (S.written out.new)) }
{
    let back = [
        ("missing", Number(change.missing)),
        ("ok", Text("change")),
        ("published", Bool(change.published)),
        ("version", Number(change.version)),
    ];
    send_object_around(alloc, &[], "changed", &change.changed, &back, out)
}

fn send_make<S: Serializer>(alloc: Global, made: &Made, out: &mut S) -> Result<(), S::Error>
    ensures { OnOk result (Sends (reply_data (said.Make made.now)) (S.written out.old) (S.written out.new)) }
{
    let front = [("ok", Text("make")), ("published", Number(made.published))];
    send_object_around(alloc, &front, "rows", made, &[], out)
}

// How many rows there are of each type.
impl ToJson for Made {
    ghost use Rattle.hol_answers.specs.Reply.{made_rows};

    ghost json = { made_rows };

    fn send<S: Serializer>(&self, alloc: Global, out: &mut S) -> Result<(), S::Error> {
        let members = [
            ("Film", Number(self.films)),
            ("Tags", Number(self.tags)),
            ("Text", Number(self.texts)),
        ];
        send_object(alloc, &members, out)
    }
}
