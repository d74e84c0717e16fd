ghost use Rattle.std.specs.Prelude.{◌≡◌};

use descriptor::with_descriptor;
use layers::{Migrated, Migration, Renamed, Renaming, Table, TableFault};
use polled::with_page;
use sink::{Direct, Placed, Ring, Route, Sink, Visit};
use std::process::Abort;
use std::test::Fail;
use vectors::Fault;

// Posts 41h and rings, freezes, posts 42h and rings urgently, looks at group 1, thaws, draws group 1 and looks again.
#[derive(Drop)]
struct Drive;

#[derive(Clone, Copy)]
struct Seen {
    first: Result<Placed, Fault>,
    ring: Option<Ring>,
    second: Result<Placed, Fault>,
    again: Option<Ring>,
    looked: Result<u64, Fault>,
    drawn: Result<u64, Fault>,
    left: Result<u64, Fault>,
}

impl Visit for Drive {
    type Out = Seen;

    ghost did = { λ s m os r t n. t ≡ s };

    fn visit<S: Sink>(&mut self, sink: &mut S) -> Seen {
        let first = sink.park(0x41);
        let ring = sink.bell(false);
        sink.freeze();
        let second = sink.park(0x42);
        let again = sink.bell(true);
        let looked = (*sink).look(1);
        sink.thaw();
        let drawn = sink.draw(1);
        let left = (*sink).look(1);
        Seen {
            first,
            ring,
            second,
            again,
            looked,
            drawn,
            left,
        }
    }
}

// The names under which the two posts are expected, where the first goes, and the group's word.
fn expect(
    rt: &impl Abort,
    seen: Seen,
    names: (u8, u8),
    route: Route,
    word: u64,
) -> Result<(), Fail> {
    let first = seen.first?;
    assert_eq!(rt; first.vector, names.0);
    assert_eq!(rt; first.route, route);
    let second = seen.second?;
    assert_eq!(rt; second.vector, names.1);
    assert_eq!(rt; second.route, Route::Parked);
    assert!(rt; seen.ring.is_some());
    assert!(rt; seen.again.is_none());
    assert_eq!(rt; seen.looked, Ok(word));
    assert_eq!(rt; seen.drawn, Ok(word));
    assert_eq!(rt; seen.left, Ok(0));
    Ok(())
}

// 41h is called 51h and 51h 61h, 42h is called 52h and 52h 62h; every other vector is called 10h.
fn table() -> Result<Table, TableFault> {
    let mut names = [0x10; 256];
    names[..16].fill(0);
    names[0x41] = 0x51;
    names[0x51] = 0x61;
    names[0x42] = 0x52;
    names[0x52] = 0x62;
    Table::try_from(names.as_slice())
}

#[test]
fn renaming_on_migration_on_each_bottom(rt: HostRuntime) -> Result<(), Fail> {
    let table = table()?;
    let mut drive = Drive;
    let mut renamed = Renamed {
        table: &table,
        inner: &mut drive,
    };
    let mut pile = Migrated {
        inner: &mut renamed,
    };
    let mut direct = Direct::new();
    let seen = pile.visit(&mut direct);
    expect(&rt, seen, (0x51, 0x52), Route::Through, 1 << 18)?;
    let mut bytes = [0; 64];
    bytes[34] = 0xF2;
    let seen = with_descriptor(&mut bytes, &mut pile)?;
    expect(&rt, seen, (0x51, 0x52), Route::Parked, 3 << 17)?;
    let mut page = [0; 257];
    let seen = with_page(&mut page, &mut pile)?;
    expect(&rt, seen, (0x51, 0x52), Route::Parked, 3 << 17)?;
    assert_eq!(rt; page[256], 1);
    Ok(())
}

#[test]
fn migration_on_renaming_holds_names(rt: HostRuntime) -> Result<(), Fail> {
    let table = table()?;
    let mut pile = Migration::new(Renaming::new(Direct::new(), table));
    let seen = Drive.visit(&mut pile);
    expect(&rt, seen, (0x51, 0x52), Route::Through, 1 << 18)
}

#[test]
fn each_layer_on_itself(rt: HostRuntime) -> Result<(), Fail> {
    let table = table()?;
    let mut pile = Migration::new(Migration::new(Direct::new()));
    let seen = Drive.visit(&mut pile);
    expect(&rt, seen, (0x41, 0x42), Route::Through, 1 << 2)?;
    let twice = Renaming::new(Renaming::new(Direct::new(), table), table);
    let mut pile = Migration::new(twice);
    let seen = Drive.visit(&mut pile);
    expect(&rt, seen, (0x61, 0x62), Route::Through, 1 << 34)
}
