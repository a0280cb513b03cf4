use crate::hashed::HashedTable;
use crate::key::{Key, Reference};
use crate::numbering::{Unnumbered, number_all};
use crate::probe::first_slot;
use crate::searched::SearchedTable;
use crate::table::CornerTable;
use elements::corner::VertexIndices;
use elements::point::{Pair, Point};
use std::alloc::Global;
use std::process::Abort;
use std::test::Fail;

// Nine references whose walks, in a table with room for eight, all start at the last slot and go round the end.
fn crowd() -> [Reference; 9] {
    let mut keys = [Reference { at: 0 }; 9];
    let crowded = (0..2000)
        .map(|at| Reference { at })
        .filter(|key| first_slot(key.hash(), 17) == 16);
    for (key, found) in keys.iter_mut().zip(crowded) {
        *key = found;
    }
    keys
}

// Fills a table that has room for eight.
fn fill<T: CornerTable<Reference>>(rt: &impl Abort, table: &mut T) {
    let keys = crowd();
    for (i, key) in keys[..8].iter().enumerate() {
        assert_eq!(rt; table.find(key), None);
        assert_eq!(rt; table.enter(*key), Some(i as u32));
    }
    assert_eq!(rt; table.enter(keys[8]), None);
    for (i, key) in keys[..8].iter().enumerate() {
        assert_eq!(rt; table.enter(*key), Some(i as u32));
        assert_eq!(rt; table.find(key), Some(i as u32));
    }
    assert_eq!(rt; table.find(&keys[8]), None);
    table.empty();
    assert_eq!(rt; table.find(&keys[0]), None);
    assert_eq!(rt; table.enter(keys[8]), Some(0));
}

#[test]
fn tables_fill_up(rt: HostRuntime) -> Result<(), Fail> {
    assert_eq!(rt; first_slot(crowd()[8].hash(), 17), 16);
    let mut hashed = HashedTable::new(rt.alloc(), vec![in rt.alloc(); Reference { at: 0 }; 8]?)?;
    fill(&rt, &mut hashed);
    let mut searched = SearchedTable::new(vec![in rt.alloc(); Reference { at: 0 }; 8]?);
    fill(&rt, &mut searched);
    Ok(())
}

// Two keys that differ, in a table with room for both.
fn told_apart<K: Key>(rt: &impl Abort, heap: Global, a: K, b: K) -> Result<(), Fail> {
    let mut cells = Vec::new(heap);
    cells.push(a)?;
    cells.push(a)?;
    let mut table = HashedTable::new(heap, cells)?;
    assert_eq!(rt; table.enter(a), Some(0));
    assert_eq!(rt; table.enter(b), Some(1));
    assert_eq!(rt; table.enter(a), Some(0));
    assert!(rt; !a.same(&b) && b.same(&b));
    Ok(())
}

#[test]
fn keys_lose_no_bit(rt: HostRuntime) -> Result<(), Fail> {
    let heap = rt.alloc();
    told_apart(
        &rt,
        heap,
        Reference { at: 1 },
        Reference { at: 1 << 63 | 1 },
    )?;
    told_apart(
        &rt,
        heap,
        VertexIndices { v: 1, vt: 2, vn: 3 },
        VertexIndices {
            v: 1,
            vt: 2,
            vn: 1 << 32 | 3,
        },
    )?;
    told_apart(
        &rt,
        heap,
        Point::ZERO,
        Point {
            x: -0.0,
            y: 0.0,
            z: 0.0,
        },
    )?;
    told_apart(&rt, heap, Pair { u: 0.5, v: 0.0 }, Pair { u: 0.5, v: -0.0 })
}

#[test]
fn keys_are_numbered(rt: HostRuntime) -> Result<(), Fail> {
    let heap = rt.alloc();
    let keys = [
        Reference { at: 7 },
        Reference { at: 5 },
        Reference { at: 7 },
        Reference { at: 9 },
        Reference { at: 5 },
    ];
    let mut out = [8; 6];
    let mut three = HashedTable::new(heap, vec![in heap; Reference { at: 0 }; 3]?)?;
    assert_eq!(rt; number_all(&mut three, &keys, &mut out), Ok(()));
    assert_eq!(rt; out, [0, 1, 0, 2, 1, 8]);
    assert_eq!(rt;
        number_all(&mut three, &keys, &mut out[0..4]),
        Err(Unnumbered::Short)
    );
    let mut two = SearchedTable::new(vec![in heap; Reference { at: 0 }; 2]?);
    let mut out = [8; 5];
    assert_eq!(rt;
        number_all(&mut two, &keys, &mut out),
        Err(Unnumbered::Full(3))
    );
    assert_eq!(rt; out, [0, 1, 0, 8, 8]);
    assert_eq!(rt; two.find(&keys[0]), None);
    Ok(())
}
