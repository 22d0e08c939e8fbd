ghost use Rattle.std.specs.Prelude.{◌≡◌, ◌<◌, true, false, Some, IsTrue, IfOk, IfErr, OnOk};
ghost use Rattle.pgs_codec.specs.declared.command.Command.TheVariants.{Schema as SchemaCommand};
ghost use Rattle.pgs_codec.specs.Frame.{framed};
ghost use Rattle.pgs_codec.specs.Payload.{payload_of};
ghost use Rattle.pgs_codec.specs.Reading.{decoded};
ghost use Rattle.pgs_resolve.specs.SchemaOf.{schema as schema_as, schema_of};
ghost use Rattle.pgs_schema.specs.Told.{IsRefused};
ghost use Rattle.pgs_store.specs.Evolves.{Evolves, IsNumbered, IsUnfit, Renews, is_disk_fault as is_fault_of_area, is_early};
ghost use Rattle.pgs_store.specs.State.{IsIndexed};
ghost use Rattle.pgs_store.specs.Stored.{IsBounded, StandsOn, IsEvolvedIn, evolved as evolved_guard};
ghost use Rattle.pgs_store.specs.World.{StaysBeside, CountsFault};
ghost use Rattle.pgs_world.specs.Moment.{EachSince};

use crate::fault::SchemaRefusal;
use crate::judging::index_of_rows;
use crate::loading::schema_frame;
use crate::{EvolveFault, Guard, Store};
use pgs_base::Steps;
use pgs_journal::Journal;
use pgs_keyindex::KeyIndex;
use pgs_schema::{Schema, SchemaUnread};
use pgs_scratch::{Judged, judge};
use pgs_world::World;
use std::marker::Brand;
use std::sync::ledger::{Blank, Ledger};

/// Another schema under which the graph of a guard conforms, and the index that stands for the graph by its keys.
pub(crate) struct Renewal {
    pub(crate) schema: Schema,
    pub(crate) index: KeyIndex,
}

impl Drop for Renewal {
    fn drop(self) {
        let Renewal {
            schema: _,
            index: _,
        } = self;
    }
}

impl Renewal {
    fn into_parts(self) -> (Schema, KeyIndex)
        ensures schema { result.0 ≡ self.schema }
        ensures index { result.1 ≡ self.index }
    {
        let Renewal { schema, index } = self;
        (schema, index)
    }
}

/// Judges the graph of a guard under a schema, from scratch. The guard stays as it is.
pub(crate) fn renewal_of<L: Ledger>(
    guard: &Guard,
    schema: Schema,
    steps: &mut Steps<L>,
) -> Result<Renewal, SchemaRefusal>
    ensures same { IfOk result (λ it. it.schema ≡ schema) }
    ensures schema { schema_of schema.text ≡ schema_as schema.resolved }
    ensures indexed { IfOk result (λ it. IsIndexed schema.resolved guard.now.limits guard.now.graph it.index) }
    ensures hashed { IfOk result (λ it. it.index.seed ≡ guard.now.seed) }
    ensures unfit { IfErr result (IsUnfit guard.now schema.text) }
{
    guard.facts();
    let _text = schema.text();
    let compiled = schema.compiled();
    match judge(guard.alloc, &guard.graph, compiled, schema.keys(), steps)? {
        Judged::Conforming(rows) => {
            let index = index_of_rows(guard.alloc, &guard.graph, compiled, guard.seed, rows)?;
            Ok(Renewal { schema, index })
        }
        Judged::Violated(violation) => Err(SchemaRefusal::Violated(violation)),
    }
}

impl Guard {
    /// Reads the text of another schema.
    pub(crate) fn read(&self, text: &[u8]) -> Result<Schema, SchemaUnread>
        ensures text { IfOk result (λ read. read.text ≡ text.now) }
        ensures refused { IfErr result (IsRefused (schema_of text.now)) }
    {
        Schema::read(self.alloc, text)
    }

    /// Puts the guard under another schema. The graph and the commits stay.
    pub(crate) fn renew(&mut self, renewal: Renewal)
        requires indexed { IsIndexed renewal.schema.resolved self.old.limits self.old.graph renewal.index }
        requires hashed { renewal.index.seed ≡ self.old.seed }
        ensures { self.new ≡ evolved_guard self.old renewal.schema.text renewal.schema.resolved }
    {
        let (schema, index) = renewal.into_parts();
        self.schema = schema;
        self.index = index;
    }
}

fn is_disk_fault(answer: &Result<(), EvolveFault>) -> bool
    ensures { result ≡ is_fault_of_area answer.now }
{
    matches!(answer, Err(EvolveFault::DiskFault))
}

// The same, by a counter of the ledger, and the frame of the schema's record, which has this number or none.
fn framed_renewal<L: Ledger>(
    guard: &Guard,
    schema: Schema,
    number: Option<u64>,
    blank: Blank,
) -> Result<(Renewal, Vec<u8>), SchemaRefusal>
    requires name { blank.name ≡ L.name }
    requires parts { blank.parts ≡ L.parts }
    requires some { 0 < blank.parts }
    ensures same { IfOk result (λ it. it.0.schema ≡ schema) }
    ensures schema { schema_of schema.text ≡ schema_as schema.resolved }
    ensures indexed { IfOk result (λ it. IsIndexed schema.resolved guard.now.limits guard.now.graph it.0.index) }
    ensures hashed { IfOk result (λ it. it.0.index.seed ≡ guard.now.seed) }
    ensures unfit { IfErr result (IsUnfit guard.now schema.text) }
    ensures frame { IfOk result (λ it. it.1.items ≡ framed number (payload_of (SchemaCommand schema.text))) }
    ensures decoded { OnOk result (decoded (payload_of (SchemaCommand schema.text)) ≡ Some (SchemaCommand schema.text)) }
{
    let mut steps: Steps<L> = Steps::begin(blank);
    let renewal = renewal_of(guard, schema, &mut steps)?;
    let frame = schema_frame(guard.alloc, renewal.schema.text(), number)?;
    Ok((renewal, frame))
}

// Judges the graph under a schema, journals the schema where the graph conforms, and then puts the guard under it. All memory is taken
// before the first call on the world.
fn journal_schema<W: World>(
    guard: &mut Guard,
    journal: &mut Journal,
    world: &mut W,
    schema: Schema,
) -> Result<(), EvolveFault>
    requires bounded { IsBounded journal.old guard.old.commits }
    requires numbered { IsNumbered journal.old }
    requires stands { StandsOn guard.old journal.old (W.view world.old) }
    ensures answer { Renews result guard.old guard.new journal.old journal.new schema.text (W.view world.new) }
    ensures bounded { IsBounded journal.new guard.new.commits }
    ensures early { is_early result ≡ true → world.new ≡ world.old }
    ensures faults { CountsFault (is_fault_of_area result) (W.view world.old) (W.view world.new) }
    ensures last { is_fault_of_area result ≡ true → W.failed world.new }
    ensures beside { StaysBeside journal.old.area (W.view world.old) (W.view world.new) }
    ensures stops { IsTrue (W.view world.old).honest → IsTrue (W.view world.old).tells_bytes
        → EachSince (IsEvolvedIn guard.old journal.old schema.text) (W.view world.old) (W.view world.new) }
{
    let (renewal, frame) = framed_renewal::<Brand>(guard, schema, journal.next, Blank::new(1))?;
    match journal.append(world, frame.as_slice()) {
        Ok(()) => {
            guard.renew(renewal);
            Ok(())
        }
        Err(_) => Err(EvolveFault::DiskFault),
    }
}

impl Store {
    /// Puts the store under the schema of a text, where the graph conforms to it: the graph and the commits stay, and the index stands
    /// for the graph by the new keys. The graph is judged from scratch. At every moment of the call what is saved is the old schema or
    /// the new one, with the same commits and graph; after `Ok` it is the latter in every image.
    ///
    /// The first that applies: `NeedsReopen` exactly where an earlier call answered `DiskFault`; 41 `OldFormat` exactly where the chosen
    /// area is of the first format; `Schema` (10 to 19) exactly where the text is no schema; `Violated` exactly with the first violation
    /// of the graph under the schema. `Memory` always comes before the first call on the world. After these the store and the world are
    /// as they were. `DiskFault` comes only where the graph conforms to the schema of the text and the count of area faults rose; the
    /// readers then show the schema from before.
    pub fn evolve<W: World>(&mut self, world: &mut W, schema: &[u8]) -> Result<(), EvolveFault>
        requires stands { self.old.failed ≡ false → StandsOn self.old.guard self.old.journal (W.view world.old) }
        // What it answers, and what becomes of the store.
        ensures answer { Evolves result self.old self.new schema.now (W.view world.new) }
        ensures early { is_early result ≡ true → world.new ≡ world.old }
        ensures faults { CountsFault (is_fault_of_area result) (W.view world.old) (W.view world.new) }
        ensures last { is_fault_of_area result ≡ true → W.failed world.new }
        // What it leaves of the world, at every moment.
        ensures stops { self.old.failed ≡ false → IsTrue (W.view world.old).honest → IsTrue (W.view world.old).tells_bytes
            → EachSince (IsEvolvedIn self.old.guard self.old.journal schema.now) (W.view world.old) (W.view world.new) }
        ensures beside { StaysBeside self.old.journal.area (W.view world.old) (W.view world.new) }
    {
        if self.failed {
            return Err(EvolveFault::NeedsReopen);
        }
        if self.journal.next.is_none() {
            return Err(EvolveFault::OldFormat);
        }
        let read = self.guard.read(schema)?;
        self.evolve_to(world, read)
    }

    /// The same with a schema that was read: so what is to be answered can be made of it before anything is written.
    pub fn evolve_to<W: World>(&mut self, world: &mut W, schema: Schema) -> Result<(), EvolveFault>
        requires stands { self.old.failed ≡ false → StandsOn self.old.guard self.old.journal (W.view world.old) }
        // What it answers, and what becomes of the store.
        ensures answer { Evolves result self.old self.new schema.text (W.view world.new) }
        ensures early { is_early result ≡ true → world.new ≡ world.old }
        ensures faults { CountsFault (is_fault_of_area result) (W.view world.old) (W.view world.new) }
        ensures last { is_fault_of_area result ≡ true → W.failed world.new }
        // What it leaves of the world, at every moment.
        ensures stops { self.old.failed ≡ false → IsTrue (W.view world.old).honest → IsTrue (W.view world.old).tells_bytes
            → EachSince (IsEvolvedIn self.old.guard self.old.journal schema.text) (W.view world.old) (W.view world.new) }
        ensures beside { StaysBeside self.old.journal.area (W.view world.old) (W.view world.new) }
    {
        if self.failed {
            return Err(EvolveFault::NeedsReopen);
        }
        if self.journal.next.is_none() {
            return Err(EvolveFault::OldFormat);
        }
        let answer = journal_schema(&mut self.guard, &mut self.journal, world, schema);
        self.failed = is_disk_fault(&answer);
        answer
    }
}
