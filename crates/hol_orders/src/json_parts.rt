//! The parts that orders are made of, taken from JSON values.
ghost use Rattle.std.specs.Prelude.{◌≡◌, ◌≢◌, ◌<◌, ◌↔◌, ℕ, length, MatchOption, IsTrue};
ghost use Rattle.serde_json.specs.Data.{array};
ghost use Rattle.serde_json.specs.View.{view, items_view, members_view};
ghost use Rattle.hol_orders.specs.Parts.{whole as whole_data, triple};
ghost use Rattle.hol_orders.specs.Shapes.{ArePaths, AreTexts, AreRecords, AreArrays, AreKeys, AreListsOfArrays, DoNeighboursDiffer, IsTruth, are_lists, is_list_of_arrays};
ghost use Rattle.hol_orders.specs.Spelling.{Finds, version as a_version, versions as some_versions};
ghost use Rattle.hol_orders.specs.Taken.{TellsItems, TellsMember, TellsThree};

use crate::order::{OrderFault, Versions};
use json_values::are_schemas;
use schema_model::Name;
use serde_json::{Map, Value};
use std::alloc::Global;

/// What stands in an order, and what is to be found in its JSON.
pub(crate) trait FromJson: Drop + Sized {
    ghost use Rattle.serde_json.specs.View.{view};
    ghost use Rattle.hol_orders.specs.Spelling.{Finds, Spelling};

    // What is asked for by it.
    ghost Asked: { Type 0 };

    ghost asked: { Self → Asked };

    // Which can be asked for, and the JSON of each.
    ghost spelling: { Spelling Asked };

    /// The one that the value spells. `BadOrder` comes exactly where it spells none.
    fn from_json(alloc: Global, value: Value) -> Result<Self, OrderFault>
        ensures { Finds spelling asked (view value) result };
}

/// Key paths, still JSON: an array of texts.
#[derive(Drop)]
pub(crate) struct Paths(pub(crate) Value);

/// The values of a key, still JSON: an array.
#[derive(Drop)]
pub(crate) struct KeyValues(pub(crate) Value);

/// Records by type, still JSON: an object of arrays.
#[derive(Drop)]
pub(crate) struct Records(pub(crate) Value);

/// Keys of records to be removed by type, still JSON: an object of arrays of arrays.
#[derive(Drop)]
pub(crate) struct RemovedKeys(pub(crate) Value);

/// A value of a key, still JSON: whatever it is.
#[derive(Drop)]
pub(crate) struct KeyValue(pub(crate) Value);

/// How many old states are kept: at most 1,000.
#[derive(Drop)]
pub(crate) struct Bound(pub(crate) u32);

/// Schemas, still JSON: a list of them.
#[derive(Drop)]
pub(crate) struct SchemaList(pub(crate) Value);

impl FromJson for Name {
    ghost use Rattle.std.specs.Prelude.{ℕ, List};
    ghost use Rattle.hol_orders.specs.Spelling.{text};

    ghost Asked = { List ℕ };

    ghost asked = { λ name. name };

    ghost spelling = { text };

    fn from_json(_alloc: Global, value: Value) -> Result<Name, OrderFault> {
        match value {
            Value::String(text) => Ok(Name::from_string(text)),
            _ => Err(OrderFault::BadOrder),
        }
    }
}

// A version.
impl FromJson for u64 {
    ghost use Rattle.std.specs.Prelude.{ℕ};
    ghost use Rattle.hol_orders.specs.Spelling.{version};

    ghost Asked = { ℕ };

    ghost asked = { λ number. number };

    ghost spelling = { version };

    fn from_json(_alloc: Global, value: Value) -> Result<u64, OrderFault> {
        version(&value)
    }
}

// An ordinal.
impl FromJson for u32 {
    ghost use Rattle.std.specs.Prelude.{ℕ};
    ghost use Rattle.hol_orders.specs.Spelling.{ordinal};

    ghost Asked = { ℕ };

    ghost asked = { λ number. number };

    ghost spelling = { ordinal };

    fn from_json(_alloc: Global, value: Value) -> Result<u32, OrderFault> {
        match whole(&value) {
            Some(number) if number < 1 << 32 => Ok(number as u32),
            _ => Err(OrderFault::BadOrder),
        }
    }
}

// A tag.
impl FromJson for i64 {
    ghost use Rattle.std.specs.Prelude.{ℤ};
    ghost use Rattle.hol_orders.specs.Spelling.{tag};

    ghost Asked = { ℤ };

    ghost asked = { λ number. number };

    ghost spelling = { tag };

    fn from_json(_alloc: Global, value: Value) -> Result<i64, OrderFault> {
        match value {
            Value::Number(number) => number.as_i64().ok_or(OrderFault::BadOrder),
            _ => Err(OrderFault::BadOrder),
        }
    }
}

impl FromJson for Paths {
    ghost use Rattle.serde_json.specs.Data.{Data};
    ghost use Rattle.serde_json.specs.View.{view};
    ghost use Rattle.hol_orders.specs.Shapes.{ArePaths};
    ghost use Rattle.hol_orders.specs.Spelling.{json};

    ghost Asked = { Data };

    ghost asked = { λ paths. view paths.0 };

    ghost spelling = { json ArePaths };

    fn from_json(_alloc: Global, value: Value) -> Result<Paths, OrderFault> {
        if are_paths(&value) {
            Ok(Paths(value))
        } else {
            Err(OrderFault::BadOrder)
        }
    }
}

impl FromJson for KeyValues {
    ghost use Rattle.serde_json.specs.Data.{Data};
    ghost use Rattle.serde_json.specs.View.{view};
    ghost use Rattle.hol_orders.specs.Shapes.{IsArray};
    ghost use Rattle.hol_orders.specs.Spelling.{json};

    ghost Asked = { Data };

    ghost asked = { λ values. view values.0 };

    ghost spelling = { json IsArray };

    fn from_json(_alloc: Global, value: Value) -> Result<KeyValues, OrderFault> {
        if value.is_array() {
            Ok(KeyValues(value))
        } else {
            Err(OrderFault::BadOrder)
        }
    }
}

impl FromJson for Records {
    ghost use Rattle.serde_json.specs.Data.{Data};
    ghost use Rattle.serde_json.specs.View.{view};
    ghost use Rattle.hol_orders.specs.Shapes.{AreRecords};
    ghost use Rattle.hol_orders.specs.Spelling.{json};

    ghost Asked = { Data };

    ghost asked = { λ records. view records.0 };

    ghost spelling = { json AreRecords };

    fn from_json(_alloc: Global, value: Value) -> Result<Records, OrderFault> {
        if are_records(&value) {
            Ok(Records(value))
        } else {
            Err(OrderFault::BadOrder)
        }
    }
}

impl FromJson for SchemaList {
    ghost use Rattle.serde_json.specs.Data.{Data};
    ghost use Rattle.serde_json.specs.View.{view};
    ghost use Rattle.json_values.specs.SchemaJson.{AreSchemas};
    ghost use Rattle.hol_orders.specs.Spelling.{json};

    ghost Asked = { Data };

    ghost asked = { λ schemas. view schemas.0 };

    ghost spelling = { json AreSchemas };

    fn from_json(_alloc: Global, value: Value) -> Result<SchemaList, OrderFault> {
        if are_schemas(&value) {
            Ok(SchemaList(value))
        } else {
            Err(OrderFault::BadOrder)
        }
    }
}

impl FromJson for RemovedKeys {
    ghost use Rattle.serde_json.specs.Data.{Data};
    ghost use Rattle.serde_json.specs.View.{view};
    ghost use Rattle.hol_orders.specs.Shapes.{AreKeys};
    ghost use Rattle.hol_orders.specs.Spelling.{json};

    ghost Asked = { Data };

    ghost asked = { λ keys. view keys.0 };

    ghost spelling = { json AreKeys };

    fn from_json(_alloc: Global, value: Value) -> Result<RemovedKeys, OrderFault> {
        if are_keys(&value) {
            Ok(RemovedKeys(value))
        } else {
            Err(OrderFault::BadOrder)
        }
    }
}

impl FromJson for KeyValue {
    ghost use Rattle.serde_json.specs.Data.{Data};
    ghost use Rattle.serde_json.specs.View.{view};
    ghost use Rattle.hol_orders.specs.Kind.{IsAny};
    ghost use Rattle.hol_orders.specs.Spelling.{json};

    ghost Asked = { Data };

    ghost asked = { λ value. view value.0 };

    ghost spelling = { json IsAny };

    fn from_json(_alloc: Global, value: Value) -> Result<KeyValue, OrderFault> {
        Ok(KeyValue(value))
    }
}

impl FromJson for Bound {
    ghost use Rattle.std.specs.Prelude.{ℕ};
    ghost use Rattle.hol_orders.specs.Kind.{bound};

    ghost Asked = { ℕ };

    ghost asked = { λ number. number.0 };

    ghost spelling = { bound };

    fn from_json(_alloc: Global, value: Value) -> Result<Bound, OrderFault> {
        match whole(&value) {
            Some(number) if number <= 1000 => Ok(Bound(number as u32)),
            _ => Err(OrderFault::BadOrder),
        }
    }
}

// An array of the two.
impl<A: FromJson, B: FromJson> FromJson for (A, B) {
    ghost use Rattle.hol_orders.specs.Spelling.{pair_of};

    ghost Asked = { A.Asked × B.Asked };

    ghost asked = { λ both. (A.asked both.0, B.asked both.1) };

    ghost spelling = { pair_of A.spelling B.spelling };

    fn from_json(alloc: Global, value: Value) -> Result<(A, B), OrderFault> {
        let [first, second] = items::<2>(value)?;
        let first = A::from_json(alloc, first)?;
        let second = B::from_json(alloc, second)?;
        Ok((first, second))
    }
}

// An array of the three.
impl<A: FromJson, B: FromJson, C: FromJson> FromJson for (A, B, C) {
    ghost use Rattle.hol_orders.specs.Spelling.{triple_of};

    ghost Asked = { A.Asked × B.Asked × C.Asked };

    ghost asked = { λ all. (A.asked all.0, B.asked all.1, C.asked all.2) };

    ghost spelling = { triple_of A.spelling B.spelling C.spelling };

    fn from_json(alloc: Global, value: Value) -> Result<(A, B, C), OrderFault> {
        let (first, second, third) = triple_of(value)?;
        let first = A::from_json(alloc, first)?;
        let second = B::from_json(alloc, second)?;
        let third = C::from_json(alloc, third)?;
        Ok((first, second, third))
    }
}

impl FromJson for Versions {
    ghost use Rattle.std.specs.Prelude.{ℕ, List};
    ghost use Rattle.hol_orders.specs.Kind.{walk};

    ghost Asked = { List ℕ };

    ghost asked = { λ versions. versions };

    ghost spelling = { walk };

    fn from_json(alloc: Global, value: Value) -> Result<Versions, OrderFault> {
        let Value::Array(items) = value else {
            return Err(OrderFault::BadOrder);
        };
        let versions = versions_of(alloc, items.as_slice())?;
        if is_walk(versions.as_slice()) {
            Ok(versions)
        } else {
            Err(OrderFault::BadOrder)
        }
    }
}

// The versions that the items of an array are.
fn versions_of(alloc: Global, items: &[Value]) -> Result<Versions, OrderFault>
    ensures { Finds some_versions (λ found. found) (array (items_view items.now)) result }
{
    let mut versions = Versions::new(alloc);
    for item in items {
        versions.push(version(item)?)?;
    }
    Ok(versions)
}

// Whether these are one or more, of which neighbours differ.
fn is_walk(versions: &[u64]) -> bool
    ensures { IsTrue result ↔ ((0 < length versions.now) × DoNeighboursDiffer versions.now) }
{
    for place in 1..versions.len() {
        if versions[place] == versions[place - 1] {
            return false;
        }
    }
    !versions.is_empty()
}

// The version that a value is.
fn version(value: &Value) -> Result<u64, OrderFault>
    ensures { Finds a_version (λ found. found) (view value.now) result }
{
    match whole(value) {
        Some(version) if 0 < version && version < 1 << 63 => Ok(version),
        _ => Err(OrderFault::BadOrder),
    }
}

// The whole number that a value is.
#[tactic(auto, using(crate::proofs::Wholes::whole_number))]
fn whole(value: &Value) -> Option<u64>
    ensures { MatchOption result ((found : ℕ) → whole_data found ≢ view value.now) (λ found. whole_data found ≡ view value.now) }
{
    value.as_u64()
}

// The items of an array of so many.
fn items<const N: usize>(value: Value) -> Result<[Value; N], OrderFault>
    ensures { TellsItems N (view value) result }
{
    let Value::Array(items) = value else {
        return Err(OrderFault::BadOrder);
    };
    match items.try_into() {
        Ok(items) => Ok(items),
        Err(_) => Err(OrderFault::BadOrder),
    }
}

// The items of an array of three.
fn triple_of(value: Value) -> Result<(Value, Value, Value), OrderFault>
    ensures { TellsThree triple (view value) result }
{
    let [first, second, third] = items::<3>(value)?;
    Ok((first, second, third))
}

/// The name and the value of the only member of an object, or `None` exactly where the value is no object with exactly
/// one member.
pub(crate) fn only_member(value: Value) -> Option<(String, Value)>
    ensures { TellsMember (view value) result }
{
    let Value::Object(mut members) = value else {
        return None;
    };
    let first = members.pop_first()?;
    if members.is_empty() {
        Some(first)
    } else {
        None
    }
}

/// Whether a value is `true`.
pub(crate) fn is_true(value: &Value) -> bool
    ensures { IsTrue result ↔ IsTruth (view value.now) }
{
    match value {
        Value::Bool(truth) => *truth,
        _ => false,
    }
}

/// Whether a value is an array of texts.
pub(crate) fn are_paths(value: &Value) -> bool
    ensures { IsTrue result ↔ ArePaths (view value.now) }
{
    match value {
        Value::Array(items) => are_texts(items.as_slice()),
        _ => false,
    }
}

fn are_texts(items: &[Value]) -> bool
    ensures { IsTrue result ↔ AreTexts (items_view items.now) }
{
    items.iter().all(|item| item.is_string())
}

// Whether a value is an object of arrays.
fn are_records(value: &Value) -> bool
    ensures { IsTrue result ↔ AreRecords (view value.now) }
{
    match value {
        Value::Object(members) => are_arrays(members),
        _ => false,
    }
}

fn are_arrays(members: &Map<String, Value>) -> bool
    ensures { IsTrue result ↔ AreArrays (members_view members.now.entries) }
{
    members.values().all(|value| value.is_array())
}

// Whether a value is an object of arrays of arrays.
fn are_keys(value: &Value) -> bool
    ensures { IsTrue result ↔ AreKeys (view value.now) }
{
    match value {
        Value::Object(members) => are_lists_of_arrays(members),
        _ => false,
    }
}

fn are_lists_of_arrays(members: &Map<String, Value>) -> bool
    ensures { IsTrue result ↔ AreListsOfArrays (members_view members.now.entries) }
{
    members.values().all(|value| is_list_of_arrays(value))
}

// Whether a value is an array of arrays.
fn is_list_of_arrays(value: &Value) -> bool
    ensures { result ≡ is_list_of_arrays (view value.now) }
{
    match value {
        Value::Array(items) => are_lists(items.as_slice()),
        _ => false,
    }
}

fn are_lists(items: &[Value]) -> bool
    ensures { result ≡ are_lists (items_view items.now) }
{
    items.iter().all(|item| item.is_array())
}
