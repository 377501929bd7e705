//! The JSON object of each refusal, written by serde's events.
ghost use Rattle.std.specs.Prelude.{OnOk, [], ◌∷◌, codes, None, Some};
ghost use Rattle.serde_json.specs.Data.{string};
ghost use Rattle.hol_orders.specs.Parts.{whole};
ghost use Rattle.hol_answers.specs.declared.refusal.Refusal.TheVariants as refusal;
ghost use Rattle.hol_answers.specs.Member.{says};
ghost use Rattle.hol_answers.specs.Refusal.{bad_blob_data, refusal_data};
ghost use Rattle.hol_answers.specs.Sent.{Sends};

use crate::member::Content::{Blob, Integer, Number, Text};
use crate::member::{Content, send_object};
use crate::refusal::{
    Difference, EqualKeys, EqualRows, ItemFault, MAX_LINE_BYTES, OriginFault, Refusal,
    RefusedRecord, RowPlace,
};
use crate::to_json::ToJson;
use hol_io::BlobName;
use schema_model::{Limit, Name, Rule};
use serde::Serializer;
use std::alloc::Global;

// Its number as `error`, its `name`, and its members, in byte order of their names.
impl ToJson for Refusal {
    ghost use Rattle.hol_answers.specs.Refusal.{refusal_data};

    ghost json = { refusal_data };

    fn send<S: Serializer>(&self, alloc: Global, out: &mut S) -> Result<(), S::Error> {
        match self {
            Refusal::BadOrder => send_plain(alloc, 10, "BadOrder", out),
            Refusal::LineTooLong => send_line_too_long(alloc, out),
            Refusal::BadModel { rule, type_name } => send_bad_model(alloc, rule, type_name, out),
            Refusal::NoModel => send_plain(alloc, 13, "NoModel", out),
            Refusal::ModelFixed => send_plain(alloc, 14, "ModelFixed", out),
            Refusal::BadRecord(fault) => send_bad_record(alloc, fault, out),
            Refusal::BadVersion(last) => send_bad_version(alloc, *last, out),
            Refusal::TagUsed(tag) => send_tag_used(alloc, *tag, out),
            Refusal::NoBlob(blob) => send_no_blob(alloc, blob, out),
            Refusal::BadBlob(fault) => send_bad_blob(alloc, fault, out),
            Refusal::OtherOrigin(fault) => send_other_origin(alloc, fault, out),
            Refusal::NoState => send_plain(alloc, 21, "NoState", out),
            Refusal::NoType(name) => send_type(alloc, 22, "NoType", name, out),
            Refusal::NoRow(row) => send_no_row(alloc, row, out),
            Refusal::BadPath(path) => send_bad_path(alloc, path, out),
            Refusal::NoMatch => send_plain(alloc, 25, "NoMatch", out),
            Refusal::Ambiguous { first, second } => send_ambiguous(alloc, *first, *second, out),
            Refusal::Mismatch(difference) => send_mismatch(alloc, difference, out),
            Refusal::TooLarge(limit) => send_too_large(alloc, limit, out),
            Refusal::DuplicateRow(rows) => send_duplicate_row(alloc, rows, out),
            Refusal::OtherModel { blob, type_name } => send_other_model(
                alloc, blob, type_name, out,
            ),
            Refusal::NotLast(announced) => send_not_last(alloc, *announced, out),
            Refusal::NoIndex => send_plain(alloc, 32, "NoIndex", out),
            Refusal::WrongKind(name) => send_type(alloc, 33, "WrongKind", name, out),
            Refusal::BadKey => send_plain(alloc, 34, "BadKey", out),
            Refusal::NotGrown(name) => send_type(alloc, 35, "NotGrown", name, out),
            Refusal::NoPlan { from, to } => send_no_plan(alloc, *from, *to, out),
            Refusal::KeyTwice(keys) => send_key_twice(alloc, keys, out),
            Refusal::NoKey { type_name, index } => send_no_key(alloc, type_name, *index, out),
            Refusal::NotKept(version) => send_not_kept(alloc, *version, out),
        }
    }
}

// A refusal without members.
fn send_plain<S: Serializer>(
    alloc: Global,
    error: u64,
    name: &str,
    out: &mut S,
) -> Result<(), S::Error>
    ensures { OnOk result (Sends (says ((codes "error", whole error) ∷ (codes "name", string name.now) ∷ [])) (S.written out.old) (S.written out.new)) }
{
    let members = [("error", Number(error)), ("name", Text(name))];
    send_object(alloc, &members, out)
}

// A refusal that names a type.
fn send_type<'a, S: Serializer>(
    alloc: Global,
    error: u64,
    name: &'a str,
    type_name: &'a Name,
    out: &mut S,
) -> Result<(), S::Error>
    ensures { OnOk result (Sends (says ((codes "error", whole error) ∷ (codes "name", string name.now) ∷ (codes "type", string type_name.now) ∷ []))
        (S.written out.old) (S.written out.new)) }
{
    let members = [
        ("error", Number(error)),
        ("name", Text(name)),
        ("type", Text(type_name.text())),
    ];
    send_object(alloc, &members, out)
}

fn send_line_too_long<S: Serializer>(alloc: Global, out: &mut S) -> Result<(), S::Error>
    ensures { OnOk result (Sends (refusal_data refusal.LineTooLong) (S.written out.old) (S.written out.new)) }
{
    let members = [
        ("error", Number(11)),
        ("limit", Number(MAX_LINE_BYTES)),
        ("name", Text("LineTooLong")),
    ];
    send_object(alloc, &members, out)
}

fn send_bad_model<'a, S: Serializer>(
    alloc: Global,
    rule: &'a Rule,
    type_name: &'a Name,
    out: &mut S,
) -> Result<(), S::Error>
    ensures { OnOk result (Sends (refusal_data (refusal.BadModel rule.now type_name.now)) (S.written out.old) (S.written out.new)) }
{
    let members = [
        ("error", Number(12)),
        ("name", Text("BadModel")),
        ("rule", Text(rule.name())),
        ("type", Text(type_name.text())),
    ];
    send_object(alloc, &members, out)
}

fn send_bad_record<S: Serializer>(
    alloc: Global,
    fault: &RefusedRecord,
    out: &mut S,
) -> Result<(), S::Error>
    ensures { OnOk result (Sends (refusal_data (refusal.BadRecord fault.now)) (S.written out.old) (S.written out.new)) }
{
    let members = [
        ("error", Number(15)),
        ("index", Number(fault.index)),
        ("name", Text("BadRecord")),
        ("reason", Number(u64::from(fault.reason.number()))),
        ("type", Text(fault.type_name.text())),
    ];
    send_object(alloc, &members, out)
}

fn send_bad_version<S: Serializer>(alloc: Global, last: u64, out: &mut S) -> Result<(), S::Error>
    ensures { OnOk result (Sends (refusal_data (refusal.BadVersion last)) (S.written out.old) (S.written out.new)) }
{
    let members = [
        ("error", Number(16)),
        ("last", Number(last)),
        ("name", Text("BadVersion")),
    ];
    send_object(alloc, &members, out)
}

fn send_tag_used<S: Serializer>(alloc: Global, tag: i64, out: &mut S) -> Result<(), S::Error>
    ensures { OnOk result (Sends (refusal_data (refusal.TagUsed tag)) (S.written out.old) (S.written out.new)) }
{
    let members = [
        ("error", Number(17)),
        ("name", Text("TagUsed")),
        ("tag", Integer(tag)),
    ];
    send_object(alloc, &members, out)
}

fn send_no_blob<S: Serializer>(alloc: Global, blob: &BlobName, out: &mut S) -> Result<(), S::Error>
    ensures { OnOk result (Sends (refusal_data (refusal.NoBlob blob.now)) (S.written out.old) (S.written out.new)) }
{
    let members = [
        ("blob", Blob(blob)),
        ("error", Number(18)),
        ("name", Text("NoBlob")),
    ];
    send_object(alloc, &members, out)
}

// A fault of a blob, of a row where there is one.
fn send_bad_blob<S: Serializer>(
    alloc: Global,
    fault: &ItemFault,
    out: &mut S,
) -> Result<(), S::Error>
    ensures { OnOk result (Sends (refusal_data (refusal.BadBlob fault.now)) (S.written out.old) (S.written out.new)) }
{
    match &fault.row {
        None => send_bad_item(alloc, fault, out),
        Some(row) => send_bad_row(alloc, fault, row, out),
    }
}

fn send_bad_item<S: Serializer>(
    alloc: Global,
    fault: &ItemFault,
    out: &mut S,
) -> Result<(), S::Error>
    ensures { OnOk result (Sends (bad_blob_data fault.now None) (S.written out.old) (S.written out.new)) }
{
    let members = [
        ("at", Number(fault.at)),
        ("blob", Blob(&fault.blob)),
        ("error", Number(19)),
        ("name", Text("BadBlob")),
        ("reason", Number(u64::from(fault.reason.number()))),
    ];
    send_object(alloc, &members, out)
}

fn send_bad_row<'a, S: Serializer>(
    alloc: Global,
    fault: &'a ItemFault,
    row: &'a RowPlace,
    out: &mut S,
) -> Result<(), S::Error>
    ensures { OnOk result (Sends (bad_blob_data fault.now (Some row.now)) (S.written out.old) (S.written out.new)) }
{
    let members = [
        ("at", Number(fault.at)),
        ("blob", Blob(&fault.blob)),
        ("error", Number(19)),
        ("name", Text("BadBlob")),
        ("ordinal", Number(row.ordinal)),
        ("reason", Number(u64::from(fault.reason.number()))),
        ("type", Text(row.type_name.text())),
    ];
    send_object(alloc, &members, out)
}

fn send_other_origin<S: Serializer>(
    alloc: Global,
    fault: &OriginFault,
    out: &mut S,
) -> Result<(), S::Error>
    ensures { OnOk result (Sends (refusal_data (refusal.OtherOrigin fault.now)) (S.written out.old) (S.written out.new)) }
{
    let members = [
        ("blob", Blob(&fault.blob)),
        ("current", Integer(fault.current)),
        ("error", Number(20)),
        ("found", Integer(fault.found)),
        ("name", Text("OtherOrigin")),
    ];
    send_object(alloc, &members, out)
}

fn send_no_row<S: Serializer>(alloc: Global, row: &RowPlace, out: &mut S) -> Result<(), S::Error>
    ensures { OnOk result (Sends (refusal_data (refusal.NoRow row.now)) (S.written out.old) (S.written out.new)) }
{
    let members = [
        ("error", Number(23)),
        ("name", Text("NoRow")),
        ("ordinal", Number(row.ordinal)),
        ("type", Text(row.type_name.text())),
    ];
    send_object(alloc, &members, out)
}

fn send_bad_path<S: Serializer>(alloc: Global, path: &Name, out: &mut S) -> Result<(), S::Error>
    ensures { OnOk result (Sends (refusal_data (refusal.BadPath path.now)) (S.written out.old) (S.written out.new)) }
{
    let members = [
        ("error", Number(24)),
        ("name", Text("BadPath")),
        ("path", Text(path.text())),
    ];
    send_object(alloc, &members, out)
}

fn send_ambiguous<S: Serializer>(
    alloc: Global,
    first: u32,
    second: u32,
    out: &mut S,
) -> Result<(), S::Error>
    ensures { OnOk result (Sends (refusal_data (refusal.Ambiguous first second)) (S.written out.old) (S.written out.new)) }
{
    let members = [
        ("error", Number(26)),
        ("first", Number(u64::from(first))),
        ("name", Text("Ambiguous")),
        ("second", Number(u64::from(second))),
    ];
    send_object(alloc, &members, out)
}

fn send_mismatch<S: Serializer>(
    alloc: Global,
    difference: &Difference,
    out: &mut S,
) -> Result<(), S::Error>
    ensures { OnOk result (Sends (refusal_data (refusal.Mismatch difference.now)) (S.written out.old) (S.written out.new)) }
{
    let members = [
        ("error", Number(27)),
        ("name", Text("Mismatch")),
        ("ordinal", Content::ordinal_or_null(difference.ordinal)),
        ("type", Content::text_or_null(&difference.type_name)),
        ("version", Number(difference.version)),
    ];
    send_object(alloc, &members, out)
}

fn send_too_large<S: Serializer>(alloc: Global, limit: &Limit, out: &mut S) -> Result<(), S::Error>
    ensures { OnOk result (Sends (refusal_data (refusal.TooLarge limit.now)) (S.written out.old) (S.written out.new)) }
{
    let members = [
        ("error", Number(28)),
        ("limit", Number(limit.number())),
        ("name", Text("TooLarge")),
        ("what", Text(limit.what())),
    ];
    send_object(alloc, &members, out)
}

fn send_duplicate_row<S: Serializer>(
    alloc: Global,
    rows: &EqualRows,
    out: &mut S,
) -> Result<(), S::Error>
    ensures { OnOk result (Sends (refusal_data (refusal.DuplicateRow rows.now)) (S.written out.old) (S.written out.new)) }
{
    let members = [
        ("error", Number(29)),
        ("first", Number(u64::from(rows.first))),
        ("name", Text("DuplicateRow")),
        ("second", Number(u64::from(rows.second))),
        ("type", Text(rows.type_name.text())),
    ];
    send_object(alloc, &members, out)
}

fn send_other_model<'a, S: Serializer>(
    alloc: Global,
    blob: &'a BlobName,
    type_name: &'a Name,
    out: &mut S,
) -> Result<(), S::Error>
    ensures { OnOk result (Sends (refusal_data (refusal.OtherModel blob.now type_name.now)) (S.written out.old) (S.written out.new)) }
{
    let members = [
        ("blob", Blob(blob)),
        ("error", Number(30)),
        ("name", Text("OtherModel")),
        ("type", Text(type_name.text())),
    ];
    send_object(alloc, &members, out)
}

fn send_not_last<S: Serializer>(alloc: Global, announced: u64, out: &mut S) -> Result<(), S::Error>
    ensures { OnOk result (Sends (refusal_data (refusal.NotLast announced)) (S.written out.old) (S.written out.new)) }
{
    let members = [
        ("announced", Number(announced)),
        ("error", Number(31)),
        ("name", Text("NotLast")),
    ];
    send_object(alloc, &members, out)
}

fn send_no_plan<S: Serializer>(
    alloc: Global,
    from: Option<u64>,
    to: u64,
    out: &mut S,
) -> Result<(), S::Error>
    ensures { OnOk result (Sends (refusal_data (refusal.NoPlan from to)) (S.written out.old) (S.written out.new)) }
{
    let members = [
        ("error", Number(36)),
        ("from", Content::number_or_null(from)),
        ("name", Text("NoPlan")),
        ("to", Number(to)),
    ];
    send_object(alloc, &members, out)
}

fn send_key_twice<S: Serializer>(
    alloc: Global,
    keys: &EqualKeys,
    out: &mut S,
) -> Result<(), S::Error>
    ensures { OnOk result (Sends (refusal_data (refusal.KeyTwice keys.now)) (S.written out.old) (S.written out.new)) }
{
    let members = [
        ("error", Number(37)),
        ("first", Number(keys.first)),
        ("name", Text("KeyTwice")),
        ("second", Number(keys.second)),
        ("type", Text(keys.type_name.text())),
    ];
    send_object(alloc, &members, out)
}

fn send_no_key<S: Serializer>(
    alloc: Global,
    type_name: &Name,
    index: u64,
    out: &mut S,
) -> Result<(), S::Error>
    ensures { OnOk result (Sends (refusal_data (refusal.NoKey type_name.now index)) (S.written out.old) (S.written out.new)) }
{
    let members = [
        ("error", Number(38)),
        ("index", Number(index)),
        ("name", Text("NoKey")),
        ("type", Text(type_name.text())),
    ];
    send_object(alloc, &members, out)
}

fn send_not_kept<S: Serializer>(alloc: Global, version: u64, out: &mut S) -> Result<(), S::Error>
    ensures { OnOk result (Sends (refusal_data (refusal.NotKept version)) (S.written out.old) (S.written out.new)) }
{
    let members = [
        ("error", Number(39)),
        ("name", Text("NotKept")),
        ("version", Number(version)),
    ];
    send_object(alloc, &members, out)
}
