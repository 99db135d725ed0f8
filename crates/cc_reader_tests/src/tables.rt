//! What is read of a file.

use crate::tables_sample::SAMPLE;
use cc_dexids::read_ids;
use std::test::Fail;

#[test]
fn reads_texts_and_types(rt: HostRuntime) -> Result<(), Fail> {
    let ids = read_ids(rt.alloc(), &SAMPLE)?;
    assert_eq!(rt; ids.texts.len(), 36);
    let rows: [(usize, &[u16]); 4] = [
        (0, &[0x78]),
        (2, &[0x4c, 0x41, 0x3b]),
        (10, &[0xe9, 0xd83d, 0xde00]),
        (11, &[]),
    ];
    for (row, units) in rows {
        assert!(rt;
            ids.texts.get(row).map(|text| text.as_slice()) == Some(units),
            "{row}"
        );
    }
    assert_eq!(rt; ids.types.as_slice(), [2, 1, 3, 4, 5, 6, 7, 29].as_slice());
    Ok(())
}

#[test]
fn reads_members(rt: HostRuntime) -> Result<(), Fail> {
    let ids = read_ids(rt.alloc(), &SAMPLE)?;
    let prototypes: [(u32, &[u32]); 3] = [(5, &[]), (6, &[1, 0]), (5, &[6])];
    assert_eq!(rt; ids.protos.len(), prototypes.len());
    for (proto, (result, params)) in ids.protos.iter().zip(prototypes) {
        assert_eq!(rt; proto.result, result);
        assert_eq!(rt; proto.params.as_slice(), params);
    }
    let fields = [(0, 1, 0), (6, 6, 10)];
    assert_eq!(rt; ids.fields.len(), fields.len());
    for (row, wanted) in ids.fields.iter().zip(fields) {
        assert_eq!(rt; (row.class, row.kind, row.name), wanted);
    }
    let methods = [(0, 0, 9), (6, 1, 8), (3, 2, 0)];
    assert_eq!(rt; ids.methods.len(), methods.len());
    for (row, wanted) in ids.methods.iter().zip(methods) {
        assert_eq!(rt; (row.class, row.proto, row.name), wanted);
    }
    Ok(())
}

#[test]
fn reads_classes(rt: HostRuntime) -> Result<(), Fail> {
    let ids = read_ids(rt.alloc(), &SAMPLE)?;
    let rows: [(u32, u32, Option<u32>, &[u32], u32, u32); 3] = [
        (3, 0x600, None, &[], 0, 0),
        (0, 1, Some(4), &[3], 0x1234, 0),
        (2, 1, Some(0), &[3, 0], 0, 0x77),
    ];
    assert_eq!(rt; ids.classes.len(), rows.len());
    for (class, (named, flags, superclass, interfaces, members_at, values_at)) in ids
        .classes
        .iter()
        .zip(rows)
    {
        assert_eq!(rt; class.class, named);
        assert_eq!(rt; class.flags, flags);
        assert_eq!(rt; class.superclass, superclass);
        assert_eq!(rt; class.interfaces.as_slice(), interfaces);
        assert_eq!(rt; class.members_at, members_at);
        assert_eq!(rt; class.values_at, values_at);
    }
    Ok(())
}
