//! Why a file isn't read: the sample with some bytes changed.

use crate::tables_sample::{
    CLASSES, FIELDS, INTERFACES, METHODS, PAIRED_TEXT, PARAMS, PROTOTYPES, SAMPLE, SPARE_TEXT,
    SPARE_TYPE, SUM, SUM_OF_CHANGED,
};
use cc_dexids::read_ids;
use cc_text::adler32;
use sha1::Sha1;
use std::alloc::{AllocError, Global};
use std::process::Abort;
use std::test::Fail;

/// Changes of bytes, and the fault that comes of them, none where the word is empty.
type Case<'a> = (&'a [(usize, u8)], &'a str);

/// What reading comes to: the fault as it is shown, or nothing.
fn outcome(alloc: Global, file: &[u8]) -> Result<String, AllocError> {
    match read_ids(alloc, file) {
        Ok(_) => Ok(String::new(alloc)),
        Err(fault) => format!(in alloc; "{fault:?}"),
    }
}

/// The sample with some bytes changed.
fn changed(alloc: Global, changes: &[(usize, u8)]) -> Result<Vec<u8>, AllocError> {
    let mut file = Vec::from_slice(alloc, &SAMPLE)?;
    for (at, byte) in changes {
        if let Some(place) = file.get_mut(*at) {
            *place = *byte;
        }
    }
    Ok(file)
}

/// A file with the sum and the signature that are due to it.
fn sealed(alloc: Global, file: &[u8]) -> Result<Vec<u8>, AllocError> {
    let Some(body) = file.get(32..) else {
        return Vec::from_slice(alloc, file);
    };
    let mut signed = Vec::from_slice(alloc, &Sha1::digest(body))?;
    signed.extend_from_slice(body)?;
    let mut whole = Vec::from_slice(alloc, b"dex\n035\0")?;
    whole.extend_from_slice(&adler32(&signed).to_le_bytes())?;
    whole.extend_from_slice(&signed)?;
    Ok(whole)
}

/// Tries each case with the sum and the signature that are due.
fn try_sealed(rt: &impl Abort, alloc: Global, cases: &[Case<'_>]) -> Result<(), Fail> {
    for (changes, want) in cases {
        let file = sealed(alloc, &changed(alloc, changes)?)?;
        assert_eq!(rt; outcome(alloc, &file)?.as_str(), *want, "{changes:?}");
    }
    Ok(())
}

#[test]
fn judges_the_start(rt: HostRuntime) -> Result<(), Fail> {
    let cases: [Case<'_>; 8] = [
        (&[], ""),
        (&[(0, 0x65)], "NotDex035"),
        (&[(7, 1)], "NotDex035"),
        (&[(40, 0)], "NotDex035"),
        (&[(40, 0), (36, 0)], "NotDex035"),
        (&[(36, 0x71)], "BadSize"),
        (&[(32, 0xbf)], "BadSize"),
        (&[(13, 0)], "BadChecksum"),
    ];
    for (changes, want) in cases {
        let file = changed(rt.alloc(), changes)?;
        let fault = outcome(rt.alloc(), &file)?;
        assert!(rt; fault.as_str().starts_with(want), "{changes:?} {fault}");
    }
    Ok(())
}

#[test]
fn judges_each_length(rt: HostRuntime) -> Result<(), Fail> {
    let other = changed(rt.alloc(), &[(0, 0)])?;
    for (n, _) in SAMPLE.iter().enumerate() {
        let want = if n < 8 { "NotDex035" } else { "BadSize" };
        assert_eq!(rt; outcome(rt.alloc(), &SAMPLE[..n])?.as_str(), want, "{n}");
        assert_eq!(rt;
            outcome(rt.alloc(), other.as_slice().get(..n).unwrap_or(&[]))?.as_str(),
            "NotDex035",
            "{n}"
        );
    }
    Ok(())
}

#[test]
fn judges_each_byte(rt: HostRuntime) -> Result<(), Fail> {
    for (n, byte) in SAMPLE.iter().enumerate() {
        let file = changed(rt.alloc(), &[(n, *byte ^ 1)])?;
        let want = match n {
            0..=7 | 40..=43 => "NotDex035",
            32..=39 => "BadSize",
            _ => "BadChecksum",
        };
        assert!(rt;
            outcome(rt.alloc(), &file)?.as_str().starts_with(want),
            "{n}"
        );
    }
    Ok(())
}

#[test]
fn names_both_sums(rt: HostRuntime) -> Result<(), Fail> {
    let file = changed(rt.alloc(), &[(12, 77)])?;
    let want = format!(in rt.alloc(); "BadChecksum {{ stated: {SUM}, found: {SUM_OF_CHANGED} }}")?;
    assert_eq!(rt; outcome(rt.alloc(), &file)?.as_str(), want.as_str());
    Ok(())
}

#[test]
fn judges_the_signature(rt: HostRuntime) -> Result<(), Fail> {
    let mut file = changed(rt.alloc(), &[(12, 77)])?;
    for (place, byte) in file.iter_mut().skip(8).zip(SUM_OF_CHANGED.to_le_bytes()) {
        *place = byte;
    }
    assert_eq!(rt; outcome(rt.alloc(), &file)?.as_str(), "BadSignature");
    Ok(())
}

#[test]
fn judges_the_longest(rt: HostRuntime) -> Result<(), Fail> {
    let longest = vec![in rt.alloc(); 0u8; 8_388_608]?;
    assert_eq!(rt; outcome(rt.alloc(), &longest)?.as_str(), "NotDex035");
    let longer = vec![in rt.alloc(); 0u8; 8_388_609]?;
    assert_eq!(rt; outcome(rt.alloc(), &longer)?.as_str(), "TooLarge");
    Ok(())
}

#[test]
fn judges_tables(rt: HostRuntime) -> Result<(), Fail> {
    try_sealed(
        &rt,
        rt.alloc(),
        &[
            (&[(57, 1)], "OutOfFile { at: 112 }"),
            (&[(65, 1)], "OutOfFile { at: 256 }"),
            (&[(73, 1)], "OutOfFile { at: 288 }"),
            (&[(81, 1)], "OutOfFile { at: 324 }"),
            (&[(89, 1)], "OutOfFile { at: 340 }"),
            (&[(97, 1)], "OutOfFile { at: 364 }"),
            (&[(89, 1), (65, 1)], "OutOfFile { at: 256 }"),
            (&[(80, 1), (84, 0xb6), (85, 4)], ""),
            (&[(80, 1), (84, 0xb7), (85, 4)], "OutOfFile { at: 1207 }"),
            (&[(80, 0), (87, 0xff)], ""),
        ],
    )
}

#[test]
fn judges_texts(rt: HostRuntime) -> Result<(), Fail> {
    try_sealed(
        &rt,
        rt.alloc(),
        &[
            (&[(SPARE_TEXT + 3, 0xff)], "OutOfFile { at: 4278190641 }"),
            (
                &[(SPARE_TEXT, 0xbd), (SPARE_TEXT + 1, 4)],
                "OutOfFile { at: 1213 }",
            ),
            (&[(SPARE_TEXT, 0xbc), (SPARE_TEXT + 1, 4)], ""),
            (
                &[(SPARE_TEXT, 0xb1), (SPARE_TEXT + 1, 4)],
                "BadText { string: 11 }",
            ),
            (&[(PAIRED_TEXT, 4)], "BadText { string: 10 }"),
            (&[(PAIRED_TEXT + 1, 0xc1)], "BadText { string: 10 }"),
            (
                &[(PAIRED_TEXT + 1, 0xc1), (SPARE_TEXT + 3, 0xff)],
                "BadText { string: 10 }",
            ),
            (&[(PAIRED_TEXT + 1, 0xc1), (97, 1)], "OutOfFile { at: 364 }"),
            (
                &[(PAIRED_TEXT + 1, 0xc1), (SPARE_TYPE, 36)],
                "BadText { string: 10 }",
            ),
        ],
    )
}

#[test]
fn judges_descriptors(rt: HostRuntime) -> Result<(), Fail> {
    for text in 0..38 {
        let is = matches!(text, 1..=7 | 29..=35);
        let want = if is {
            ""
        } else {
            "BadIndex { table: 1, row: 7 }"
        };
        try_sealed(&rt, rt.alloc(), &[(&[(SPARE_TYPE, text)], want)])?;
    }
    Ok(())
}

#[test]
fn judges_prototypes(rt: HostRuntime) -> Result<(), Fail> {
    try_sealed(
        &rt,
        rt.alloc(),
        &[
            (&[(PROTOTYPES + 4, 7)], ""),
            (&[(PROTOTYPES + 4, 8)], "BadIndex { table: 2, row: 0 }"),
            (&[(PROTOTYPES + 8, 0xba), (PROTOTYPES + 9, 4)], ""),
            (
                &[(PROTOTYPES + 8, 0xbb), (PROTOTYPES + 9, 4)],
                "OutOfFile { at: 1211 }",
            ),
            (&[(PARAMS + 4, 5)], "BadIndex { table: 2, row: 1 }"),
            (&[(PARAMS + 6, 8)], "BadIndex { table: 2, row: 1 }"),
            (&[(PARAMS + 1, 2)], "OutOfFile { at: 460 }"),
            (
                &[(PARAMS + 1, 2), (PROTOTYPES + 16, 9)],
                "OutOfFile { at: 460 }",
            ),
        ],
    )
}

#[test]
fn judges_fields(rt: HostRuntime) -> Result<(), Fail> {
    let none = "BadIndex { table: 3, row: 0 }";
    try_sealed(
        &rt,
        rt.alloc(),
        &[
            (&[(FIELDS, 1)], none),
            (&[(FIELDS, 5)], none),
            (&[(FIELDS, 6)], ""),
            (&[(FIELDS, 8)], none),
            (&[(FIELDS + 2, 5)], none),
            (&[(FIELDS + 2, 6)], ""),
            (&[(FIELDS + 2, 8)], none),
            (&[(FIELDS + 4, 10)], ""),
            (&[(FIELDS + 4, 12)], none),
            (&[(FIELDS + 4, 25)], none),
            (&[(FIELDS + 4, 36)], none),
        ],
    )
}

#[test]
fn judges_methods(rt: HostRuntime) -> Result<(), Fail> {
    let none = "BadIndex { table: 4, row: 0 }";
    try_sealed(
        &rt,
        rt.alloc(),
        &[
            (&[(METHODS, 1)], none),
            (&[(METHODS, 6)], ""),
            (&[(METHODS + 2, 2)], ""),
            (&[(METHODS + 2, 3)], none),
            (&[(METHODS + 4, 12)], none),
            (&[(METHODS + 4, 36)], none),
        ],
    )
}

#[test]
fn judges_classes(rt: HostRuntime) -> Result<(), Fail> {
    let first = "BadIndex { table: 5, row: 0 }";
    let second = "BadIndex { table: 5, row: 1 }";
    let superclass = CLASSES + 40;
    try_sealed(
        &rt,
        rt.alloc(),
        &[
            (&[(CLASSES, 1)], first),
            (&[(CLASSES, 6)], first),
            (&[(CLASSES, 8)], first),
            (&[(superclass, 1)], second),
            (&[(superclass, 5)], second),
            (&[(superclass, 6)], ""),
            (
                &[
                    (superclass, 255),
                    (superclass + 1, 255),
                    (superclass + 2, 255),
                    (superclass + 3, 255),
                ],
                "",
            ),
            (
                &[
                    (superclass, 255),
                    (superclass + 1, 255),
                    (superclass + 2, 255),
                    (superclass + 3, 254),
                ],
                second,
            ),
            (&[(INTERFACES + 4, 1)], second),
            (&[(INTERFACES + 4, 6)], ""),
            (&[(INTERFACES + 1, 9)], "OutOfFile { at: 476 }"),
        ],
    )
}
