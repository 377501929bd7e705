//! The blobs of a closed cycle are written.
ghost use Rattle.std.specs.Prelude.{◌≡◌, ◌≤◌, ℕ, true, ◌^◌, None, All, IfErr, IfOk, IfSome, length, option_copied};
ghost use Rattle.blob_writing.specs.Limits.{MeansLarge};
ghost use Rattle.blob_writing.specs.Snapshot.{IsWrittenSnapshot};
ghost use Rattle.blob_writing.specs.Changes.{IsDeltaBetween};
ghost use Rattle.blob_writing.specs.Plan.{IsPlanOf};
ghost use Rattle.row_packing.specs.Measured.{AreMeasured};
ghost use Rattle.kept_sections.specs.Sections.{AreSectionsFor};
ghost use Rattle.write_engine.specs.CycleLimit.{TellsTypes};
ghost use Rattle.state_blobs.specs.Published.{published_of};
ghost use Rattle.state_blobs.specs.Puts.{AreBlobs, AreFirst, AreLater, AreWhole, IsShort};
ghost use Rattle.state_blobs.specs.Blobs.{AreLong, AreNotShort, puts_in, whole_in};

use blob_writing::{Plan, WriteFault, write_delta, write_snapshot};
use kept_sections::PackedSections;
use row_packing::Measured;
use std::alloc::{AllocError, Global};
use write_engine::{Producer, laws};

/// The blobs that are put for a state.
#[derive(Drop)]
pub enum Blobs {
    /// Those of a first state.
    First {
        /// Its version.
        version: u64,
        /// Its snapshot.
        snapshot: Vec<u8>,
    },
    /// Those of a later state.
    Later {
        /// The version of the last state.
        last: u64,
        /// Its version.
        version: u64,
        /// The delta from the last state to it.
        delta: Vec<u8>,
        /// The delta from it back to the last state.
        reverse: Vec<u8>,
        /// Its snapshot, where it is put.
        snapshot: Option<Vec<u8>>,
    },
}

/// Writes the blobs of a producer's cycle, which is to have this version and tag. The snapshot of a later state is written only where it is asked for.
/// `Large` comes exactly where one of those that are written would have more than 2^28 bytes.
pub fn write_blobs(
    alloc: Global,
    producer: &Producer,
    version: u64,
    tag: i64,
    with_snapshot: bool,
) -> Result<Blobs, WriteFault>
    requires { TellsTypes producer.now.schemas producer.now.previous producer.now.current None }
    ensures written { IfOk result (λ blobs. AreBlobs (published_of producer.now) producer.now.current version tag with_snapshot (puts_in blobs)) }
    ensures short { IfOk result (λ blobs. All IsShort (puts_in blobs)) }
    ensures large { IfErr result (MeansLarge (AreNotShort (AreBlobs (published_of producer.now) producer.now.current version tag with_snapshot))) }
{
    let plan = plan_of(alloc, producer)?;
    write_planned(alloc, producer, plan, None, version, tag, with_snapshot)
}

/// Writes the blobs of a producer's cycle by what was measured of each type, with no walk over rows to choose by. The snapshot of a later state is written only
/// where it is asked for. Where the rows of the cycle are lent as they are packed for its snapshot, it is written of these.
pub fn write_blobs_by(
    alloc: Global,
    producer: &Producer,
    measured: &[Measured],
    sections: Option<&PackedSections>,
    version: u64,
    tag: i64,
    with_snapshot: bool,
) -> Result<Blobs, WriteFault>
    requires kept { TellsTypes producer.now.schemas producer.now.previous producer.now.current None }
    requires measured { AreMeasured producer.now.schemas producer.now.previous producer.now.current measured.now }
    requires sections { IfSome (option_copied sections) (AreSectionsFor producer.now.schemas producer.now.previous producer.now.current) }
    ensures written { IfOk result (λ blobs. AreBlobs (published_of producer.now) producer.now.current version tag with_snapshot (puts_in blobs)) }
    ensures short { IfOk result (λ blobs. All IsShort (puts_in blobs)) }
    ensures large { IfErr result (MeansLarge (AreNotShort (AreBlobs (published_of producer.now) producer.now.current version tag with_snapshot))) }
{
    let plan = plan_by(alloc, producer, measured)?;
    write_planned(alloc, producer, plan, sections, version, tag, with_snapshot)
}

// The blobs of the cycle by its plan.
fn write_planned(
    alloc: Global,
    producer: &Producer,
    plan: Plan,
    sections: Option<&PackedSections>,
    version: u64,
    tag: i64,
    with_snapshot: bool,
) -> Result<Blobs, WriteFault>
    requires kept { TellsTypes producer.now.schemas producer.now.previous producer.now.current None }
    requires plan { IsPlanOf producer.now.schemas producer.now.previous producer.now.current plan }
    requires sections { IfSome (option_copied sections) (AreSectionsFor producer.now.schemas producer.now.previous producer.now.current) }
    ensures written { IfOk result (λ blobs. AreBlobs (published_of producer.now) producer.now.current version tag with_snapshot (puts_in blobs)) }
    ensures short { IfOk result (λ blobs. All IsShort (puts_in blobs)) }
    ensures large { IfErr result (MeansLarge (AreNotShort (AreBlobs (published_of producer.now) producer.now.current version tag with_snapshot))) }
{
    if producer.version() == 0 {
        write_first(alloc, producer, &plan, sections, version, tag)
    } else {
        write_later(alloc, producer, plan, sections, version, tag, with_snapshot)
    }
}

// The snapshot of a first state.
fn write_first(
    alloc: Global,
    producer: &Producer,
    plan: &Plan,
    sections: Option<&PackedSections>,
    version: u64,
    tag: i64,
) -> Result<Blobs, WriteFault>
    requires kept { TellsTypes producer.now.schemas producer.now.previous producer.now.current None }
    requires plan { IsPlanOf producer.now.schemas producer.now.previous producer.now.current plan.now }
    requires sections { IfSome (option_copied sections) (AreSectionsFor producer.now.schemas producer.now.previous producer.now.current) }
    ensures written { IfOk result (λ blobs. AreFirst (published_of producer.now) producer.now.current version tag (puts_in blobs)) }
    ensures short { IfOk result (λ blobs. All IsShort (puts_in blobs)) }
    ensures large { IfErr result (MeansLarge (AreNotShort (AreFirst (published_of producer.now) producer.now.current version tag))) }
{
    let snapshot = write_whole(alloc, producer, plan, sections, tag)?;
    Ok(Blobs::First { version, snapshot })
}

// The deltas from the last state and back to it, and the snapshot of a later state where it is asked for.
fn write_later(
    alloc: Global,
    producer: &Producer,
    plan: Plan,
    sections: Option<&PackedSections>,
    version: u64,
    tag: i64,
    with_snapshot: bool,
) -> Result<Blobs, WriteFault>
    requires kept { TellsTypes producer.now.schemas producer.now.previous producer.now.current None }
    requires plan { IsPlanOf producer.now.schemas producer.now.previous producer.now.current plan }
    requires sections { IfSome (option_copied sections) (AreSectionsFor producer.now.schemas producer.now.previous producer.now.current) }
    ensures written { IfOk result (λ blobs. AreLater (published_of producer.now) producer.now.current version tag with_snapshot (puts_in blobs)) }
    ensures short { IfOk result (λ blobs. All IsShort (puts_in blobs)) }
    ensures large { IfErr result (MeansLarge (AreNotShort (AreLater (published_of producer.now) producer.now.current version tag with_snapshot))) }
{
    let delta = write_forth(alloc, producer, &plan, tag)?;
    let snapshot = write_asked(alloc, producer, &plan, sections, tag, with_snapshot)?;
    let reverse = write_back(alloc, producer, plan, tag)?;
    Ok(Blobs::Later {
        last: producer.version(),
        version,
        delta,
        reverse,
        snapshot,
    })
}

// The snapshot of the cycle, where it is asked for.
fn write_asked(
    alloc: Global,
    producer: &Producer,
    plan: &Plan,
    sections: Option<&PackedSections>,
    tag: i64,
    with_snapshot: bool,
) -> Result<Option<Vec<u8>>, WriteFault>
    requires kept { TellsTypes producer.now.schemas producer.now.previous producer.now.current None }
    requires plan { IsPlanOf producer.now.schemas producer.now.previous producer.now.current plan.now }
    requires sections { IfSome (option_copied sections) (AreSectionsFor producer.now.schemas producer.now.previous producer.now.current) }
    ensures written { IfOk result (λ snapshot. (version : ℕ) → AreWhole with_snapshot (published_of producer.now) producer.now.current version tag (whole_in version snapshot)) }
    ensures short { IfOk result (λ snapshot. (version : ℕ) → All IsShort (whole_in version snapshot)) }
    ensures large { IfErr result (MeansLarge ((with_snapshot ≡ true) × AreLong (IsWrittenSnapshot producer.now.schemas producer.now.previous producer.now.current producer.now.tag tag))) }
{
    if with_snapshot {
        Ok(Some(write_whole(alloc, producer, plan, sections, tag)?))
    } else {
        Ok(None)
    }
}

// What the blobs of the cycle are written by.
fn plan_of(alloc: Global, producer: &Producer) -> Result<Plan, AllocError>
    requires kept { TellsTypes producer.now.schemas producer.now.previous producer.now.current None }
    ensures { IfOk result (IsPlanOf producer.now.schemas producer.now.previous producer.now.current) }
{
    laws::can_be_written();
    let previous = producer.previous();
    let current = producer.current();
    Plan::new(alloc, &previous, &current)
}

// What the blobs of the cycle are written by, from what was measured of each type.
fn plan_by(alloc: Global, producer: &Producer, measured: &[Measured]) -> Result<Plan, AllocError>
    requires kept { TellsTypes producer.now.schemas producer.now.previous producer.now.current None }
    requires measured { AreMeasured producer.now.schemas producer.now.previous producer.now.current measured.now }
    ensures { IfOk result (IsPlanOf producer.now.schemas producer.now.previous producer.now.current) }
{
    laws::can_be_written();
    let previous = producer.previous();
    let current = producer.current();
    Plan::of(alloc, measured, &previous, &current)
}

// The snapshot of the cycle.
fn write_whole(
    alloc: Global,
    producer: &Producer,
    plan: &Plan,
    sections: Option<&PackedSections>,
    tag: i64,
) -> Result<Vec<u8>, WriteFault>
    requires kept { TellsTypes producer.now.schemas producer.now.previous producer.now.current None }
    requires plan { IsPlanOf producer.now.schemas producer.now.previous producer.now.current plan.now }
    requires sections { IfSome (option_copied sections) (AreSectionsFor producer.now.schemas producer.now.previous producer.now.current) }
    ensures written { IfOk result (λ blob. IsWrittenSnapshot producer.now.schemas producer.now.previous producer.now.current producer.now.tag tag blob.items) }
    ensures short { IfOk result (λ blob. length blob.items ≤ 2 ^ 28) }
    ensures large { IfErr result (MeansLarge (AreLong (IsWrittenSnapshot producer.now.schemas producer.now.previous producer.now.current producer.now.tag tag))) }
{
    laws::can_be_written();
    let previous = producer.previous();
    let current = producer.current();
    write_snapshot(
        alloc,
        &previous,
        &current,
        plan,
        sections,
        producer.tag(),
        tag,
    )
}

// The delta from the last state to the cycle.
fn write_forth(
    alloc: Global,
    producer: &Producer,
    plan: &Plan,
    tag: i64,
) -> Result<Vec<u8>, WriteFault>
    requires kept { TellsTypes producer.now.schemas producer.now.previous producer.now.current None }
    requires plan { IsPlanOf producer.now.schemas producer.now.previous producer.now.current plan.now }
    ensures written { IfOk result (λ blob. IsDeltaBetween producer.now.schemas producer.now.previous producer.now.current producer.now.tag tag blob.items) }
    ensures short { IfOk result (λ blob. length blob.items ≤ 2 ^ 28) }
    ensures large { IfErr result (MeansLarge (AreLong (IsDeltaBetween producer.now.schemas producer.now.previous producer.now.current producer.now.tag tag))) }
{
    laws::can_be_written();
    let previous = producer.previous();
    let current = producer.current();
    write_delta(alloc, &previous, &current, plan, producer.tag(), tag)
}

// The delta from the cycle back to the last state, by the plan of the delta to it.
fn write_back(
    alloc: Global,
    producer: &Producer,
    plan: Plan,
    tag: i64,
) -> Result<Vec<u8>, WriteFault>
    requires kept { TellsTypes producer.now.schemas producer.now.previous producer.now.current None }
    requires plan { IsPlanOf producer.now.schemas producer.now.previous producer.now.current plan }
    ensures written { IfOk result (λ blob. IsDeltaBetween producer.now.schemas producer.now.current producer.now.previous tag producer.now.tag blob.items) }
    ensures short { IfOk result (λ blob. length blob.items ≤ 2 ^ 28) }
    ensures large { IfErr result (MeansLarge (AreLong (IsDeltaBetween producer.now.schemas producer.now.current producer.now.previous tag producer.now.tag))) }
{
    laws::can_be_written();
    let previous = producer.previous();
    let current = producer.current();
    let turned = plan.turned();
    write_delta(alloc, &current, &previous, &turned, tag, producer.tag())
}
