// Visits through a layer: what a visitor does to the layer, and what of it reaches the sink below.
ghost use Rattle.std.specs.Prelude.{◌≡◌, List};
ghost use Rattle.sink.specs.Ops.{Op, Chain};
ghost use Rattle.layers.specs.Holding.{MigratedVisit};
ghost use Rattle.layers.specs.Renames.{RenamedVisit};

use crate::migration::Migration;
use crate::renaming::Renaming;
use crate::table::Table;
use sink::{Sink, Visit};

// Visits a sink through a fresh migration layer.
pub fn with_migration<S: Sink, V: Visit>(sink: &mut S, visitor: &mut V) -> V::Out
    ensures did { (ps : List Op) × MigratedVisit V.Visit.did visitor.old (S.Sink.meaning sink.old) ps result visitor.new (S.Sink.meaning sink.new) × Chain S.Sink.did sink.old ps sink.new }
    ensures fixed { S.Sink.fixed sink.new ≡ S.Sink.fixed sink.old }
{
    let mut layer = Migration::new(sink);
    visitor.visit(&mut layer)
}

// Visits a sink through a renaming layer.
pub fn with_renaming<S: Sink, V: Visit>(sink: &mut S, table: Table, visitor: &mut V) -> V::Out
    ensures did { (ps : List Op) × RenamedVisit table.names V.Visit.did visitor.old (S.Sink.meaning sink.old) ps result visitor.new (S.Sink.meaning sink.new) × Chain S.Sink.did sink.old ps sink.new }
    ensures fixed { S.Sink.fixed sink.new ≡ S.Sink.fixed sink.old }
{
    let mut layer = Renaming::new(sink, table);
    visitor.visit(&mut layer)
}

// A visitor behind a migration layer: what it visits is under the layer.
// Migration and renaming have a visitor each: a trait of layers cannot name the layer over S, so each would still write its visit.
#[derive(Drop)]
pub struct Migrated<'v, V> {
    pub inner: &'v mut V,
}

impl<V: Visit> Visit for Migrated<'_, V> {
    type Out = V::Out;

    ghost did = { λ s m ps r t n. (t.inner.ghost_name ≡ s.inner.ghost_name) × MigratedVisit V.Visit.did s.inner.now m ps r t.inner.now n };

    fn visit<S: Sink>(&mut self, sink: &mut S) -> V::Out {
        with_migration(sink, self.inner)
    }
}

// A visitor behind a renaming layer.
// It refers to its table: with the table in it by value, the borrow checker does not cover it as an argument inside `Migrated`.
#[derive(Drop)]
pub struct Renamed<'t, 'v, V> {
    pub table: &'t Table,
    pub inner: &'v mut V,
}

impl<V: Visit> Visit for Renamed<'_, '_, V> {
    type Out = V::Out;

    ghost did = { λ s m ps r t n. (t.inner.ghost_name ≡ s.inner.ghost_name) × (t.table.now.names ≡ s.table.now.names) × RenamedVisit s.table.now.names V.Visit.did s.inner.now m ps r t.inner.now n };

    fn visit<S: Sink>(&mut self, sink: &mut S) -> V::Out {
        with_renaming(sink, *self.table, self.inner)
    }
}
