//! A shop's products, by the crate hollow alone: two states are published into a folder, a consumer follows them, and a product is looked up.
#![tactic(auto)]

ghost use Rattle.std.specs.Prelude.{◌≡◌, ◌↔◌, ◌<◌, All, IfOk, IsSome, IsTrue, OnOk, false, length, true};
ghost use Rattle.hollow.specs.row_model.Key.{IsResolved};
ghost use Rattle.hollow.specs.row_model.Table.{IsClosed, IsLive};
ghost use Rattle.hollow.specs.write_engine.CycleLimit.{TellsCycle, TellsTypes};

use hollow::{
    BlobFault, BlobName, Closed, Consumer, Field, FieldKind, Fields, FolderStore, IndexFault,
    Model, ModelFault, Name, Names, PathFault, Paths, PrintFault, Producer, PutFault, PutRowFault,
    Rows, Schema, Schemas, Shape, Steps, Value, ValueFault, Values, WriteFault, json_laws,
    model_of, publish, resolve, tree_from, tree_value, write_blobs,
};
use serde_json::Value as Json;
use std::alloc::{AllocError, Global};
use std::marker::Brand;
use std::process::ExitCode;
use std::sync::ledger::{Blank, Ledger};
use std::{env, io};
use thiserror::Error;

/// Why the program ends before its end.
#[derive(Debug, Drop, Error)]
enum Fault {
    #[error("usage: library_example FOLDER")]
    Usage,
    #[error("out of memory")]
    Memory(#[from(alloc)] AllocError),
    #[error("{0}")]
    Io(#[from] io::Error),
    #[error("the JSON of a record: {0}")]
    Json(#[from] serde_json::Error),
    #[error("the model: {0:?}")]
    Model(#[from] ModelFault),
    #[error("a path: {0:?}")]
    Path(#[from] PathFault),
    #[error("a record: {0:?}")]
    Record(#[from] ValueFault),
    #[error("a record: {0:?}")]
    Put(#[from] PutRowFault),
    #[error("there is no type Product")]
    NoType,
    #[error("there is no index of products")]
    NoIndex,
    #[error("the state passes a limit")]
    TooLarge,
    #[error("the blobs of a state: {0:?}")]
    Write(#[from] WriteFault),
    #[error("the folder: {0:?}")]
    Publish(#[from] PutFault),
    #[error("a blob: {0:?}")]
    Blob(#[from] BlobFault),
    #[error("an index: {0:?}")]
    Index(#[from] IndexFault),
    #[error("a record to print: {0:?}")]
    Print(#[from] PrintFault),
}

fn main(rt: HostRuntime) -> ExitCode {
    match shop(&rt) {
        Ok(()) => ExitCode::SUCCESS,
        Err(fault) => {
            let _said = eprintln!(rt; "library_example: {fault}");
            ExitCode::FAILURE
        }
    }
}

// Publishes two states into the folder that the first word names, and follows them.
fn shop(rt: &HostRuntime) -> Result<(), Fault> {
    let alloc = rt.alloc();
    let Some(folder) = env::args(rt)?.nth(1) else {
        return Err(Fault::Usage);
    };
    let mut store = FolderStore::new(*rt, alloc, folder.as_str())?;
    let mut producer = Producer::new(alloc, shop_model(alloc)?)?;
    let products = [r#"{"id":1,"name":"cup"}"#, r#"{"id":2,"name":"pot"}"#];
    publish_state(alloc, &mut producer, &mut store, &products, 1, 101)?;
    let products = [r#"{"id":2,"name":"pot"}"#, r#"{"id":3,"name":"pan"}"#];
    publish_state(alloc, &mut producer, &mut store, &products, 2, 102)?;
    follow::<Brand>(rt, Blank::new(1), &mut store)
}

// The model: a type of products, whose key is their id.
fn shop_model(alloc: Global) -> Result<Model, Fault> {
    let mut fields = Fields::new(alloc);
    fields.push(field(alloc, "id", FieldKind::Int)?)?;
    fields.push(field(alloc, "name", FieldKind::Text)?)?;
    let mut key = Names::new(alloc);
    key.push(Name::from_text(alloc, "id")?)?;
    let name = Name::from_text(alloc, "Product")?;
    let shape = Shape::Object(Some(key), fields);
    let mut schemas = Schemas::new(alloc);
    schemas.push(Schema { name, shape })?;
    Ok(model_of(alloc, schemas)?)
}

// A field of a record.
fn field(alloc: Global, name: &str, kind: FieldKind) -> Result<Field, AllocError> {
    let name = Name::from_text(alloc, name)?;
    Ok(Field { name, kind })
}

// Publishes the next state of a producer: these products, under a version and a tag.
fn publish_state(
    alloc: Global,
    producer: &mut Producer,
    store: &mut FolderStore,
    products: &[&str],
    version: u64,
    tag: i64,
) -> Result<(), Fault>
    requires open { producer.old.closed ≡ false }
    ensures open { OnOk result (producer.new.closed ≡ false) }
{
    add_products(alloc, producer, products)?;
    let closed = producer.close()?;
    publish_cycle(alloc, producer, store, &closed, version, tag)
}

// Adds products to the cycle, one after another.
fn add_products(alloc: Global, producer: &mut Producer, products: &[&str]) -> Result<(), Fault>
    requires open { producer.old.closed ≡ false }
    ensures open { producer.new.closed ≡ false }
{
    for product in products {
        add_product(alloc, producer, product)?;
    }
    Ok(())
}

// Adds a product to the cycle, which is given as JSON.
fn add_product(alloc: Global, producer: &mut Producer, text: &str) -> Result<(), Fault>
    requires open { producer.old.closed ≡ false }
    ensures open { producer.new.closed ≡ false }
{
    let Some(product) = producer.model().index_of("Product") else {
        return Err(Fault::NoType);
    };
    let json = Json::from_str(alloc, text)?;
    let record = tree_from(alloc, producer.model(), product, &json)?;
    json_laws::read_tree_fits();
    producer.add(product, &record)?;
    Ok(())
}

// Publishes a closed cycle, if it is the first one or changes a type.
fn publish_cycle(
    alloc: Global,
    producer: &mut Producer,
    store: &mut FolderStore,
    closed: &Closed,
    version: u64,
    tag: i64,
) -> Result<(), Fault>
    requires closed { producer.old.closed ≡ true }
    requires first { IsTrue closed.now.first ↔ (producer.old.version ≡ 0) }
    requires over { TellsCycle producer.old.schemas producer.old.previous producer.old.current producer.old.version closed.now.changed producer.old.over }
    ensures open { OnOk result (producer.new.closed ≡ false) }
{
    if !closed.first && closed.changed.is_empty() {
        producer.undo();
        return Ok(());
    }
    put_state(alloc, producer, store, version, tag)
}

// Puts the blobs of a closed cycle, the announced version last, and makes it the previous state.
fn put_state(
    alloc: Global,
    producer: &mut Producer,
    store: &mut FolderStore,
    version: u64,
    tag: i64,
) -> Result<(), Fault>
    requires closed { producer.old.closed ≡ true }
    requires over { TellsTypes producer.old.schemas producer.old.previous producer.old.current producer.old.over }
    ensures open { OnOk result (producer.new.closed ≡ false) }
{
    if producer.over_limit().is_some() {
        return Err(Fault::TooLarge);
    }
    let blobs = write_blobs(alloc, producer, version, tag, true)?;
    publish(alloc, store, version, &blobs)?;
    producer.advance(tag, version);
    Ok(())
}

// A consumer loads the first state, keeps an index and steps to the second: prints the products of both, and then the one whose id is 3.
fn follow<L: Ledger>(rt: &HostRuntime, blank: Blank, store: &mut FolderStore) -> Result<(), Fault>
    requires ledger { blank.name ≡ L.name }
    requires parts { blank.parts ≡ L.parts }
    requires some { 0 < blank.parts }
{
    let mut consumer = Consumer::new(rt.alloc());
    consumer.load(store, 1)?;
    print_products(rt, &consumer)?;
    let mut steps = Steps::<L>::new(blank);
    index_products(rt.alloc(), &mut consumer, &mut steps)?;
    consumer.step(store, &BlobName::Delta(1, 2), &mut steps)?;
    print_products(rt, &consumer)?;
    print_product(rt, &consumer, 3)
}

// Prints the products of a consumer's state, each as a line of JSON.
fn print_products(rt: &HostRuntime, consumer: &Consumer) -> Result<(), Fault>
    requires { IsSome consumer.now }
{
    let rows = consumer.now();
    let Some(product) = rows.model().index_of("Product") else {
        return Err(Fault::NoType);
    };
    for ordinal in 0..rows.bound(product) {
        if rows.is_live(product, ordinal) {
            print_record(rt, &rows, product, ordinal)?;
        }
    }
    Ok(())
}

// Prints a record, with all that it refers to, as a line of JSON.
fn print_record<R: Rows>(
    rt: &HostRuntime,
    rows: &R,
    type_index: u32,
    ordinal: u32,
) -> Result<(), Fault>
    requires known { type_index < length (R.schemas rows.now) }
    requires live { IsLive (R.table rows.now) type_index ordinal }
    requires closed { IsClosed (R.schemas rows.now) (R.table rows.now) }
{
    let mut nodes = 1_000;
    let record = tree_value(rt.alloc(), rows, type_index, ordinal, &mut nodes)?;
    println!(rt; "{record}")?;
    Ok(())
}

// A consumer keeps an index of its products by their key.
#[tactic(auto, using(crate::proofs::LookingUp::type_there))]
fn index_products<L: Ledger>(
    alloc: Global,
    consumer: &mut Consumer,
    steps: &mut Steps<L>,
) -> Result<(), Fault>
    requires { IsSome consumer.old }
    ensures { OnOk result (IsSome consumer.new) }
{
    let Some(model) = consumer.model() else {
        return Err(Fault::NoType);
    };
    let (product, paths) = product_key(alloc, model)?;
    consumer.add_index(product, paths, steps)?;
    Ok(())
}

// The type of products in a model, and the path of its key.
fn product_key(alloc: Global, model: &Model) -> Result<(u32, Paths), Fault>
    ensures there { IfOk result (λ key. key.0 < length model.now) }
    ensures resolved { IfOk result (λ key. All (IsResolved model.now key.0) key.1) }
{
    let Some(product) = model.index_of("Product") else {
        return Err(Fault::NoType);
    };
    let path = resolve(alloc, model, product, "id")?;
    Ok((product, Paths::from_vec(vec![in alloc; path]?)))
}

// Prints the products of a consumer's state that have this id, by the index.
#[tactic(auto, using(crate::proofs::LookingUp::number_inside, crate::proofs::LookingUp::found_live))]
fn print_product(rt: &HostRuntime, consumer: &Consumer, id: i32) -> Result<(), Fault>
    requires { IsSome consumer.now }
{
    let rows = consumer.now();
    let (product, paths) = product_key(rt.alloc(), rows.model())?;
    let Some(index) = consumer.index_of(product, &paths) else {
        return Err(Fault::NoIndex);
    };
    let key = Values::from_vec(vec![in rt.alloc(); Value::Int(id)]?);
    for ordinal in consumer.find(index, &key)?.as_slice() {
        print_record(rt, &rows, product, *ordinal)?;
    }
    Ok(())
}
