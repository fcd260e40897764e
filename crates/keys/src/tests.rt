// Keys worked out by hand.
use crate::kind::KeyKind;
use crate::place::{Place, PlaceParts};
use crate::plate::Plate;
use crate::refusal::Refusal;
use std::test::Fail;

fn place(level: i32, zone: u32, place: u32) -> Result<u64, Refusal> {
    Place::make(PlaceParts { level, zone, place })
}

#[test]
fn places_and_their_order(rt: HostRuntime) {
    assert_eq!(rt; place(-1, 2, 7), Ok(4278321159));
    assert_eq!(rt; place(0, 1, 1), Ok(65537));
    assert_eq!(rt; place(-20, 1, 1), Ok(3959488513));
    assert!(rt; Place::comes_before(4278321159, 65537));
    assert!(rt; !Place::comes_before(65537, 4278321159));
    assert_eq!(rt;
        Place::parts(4278321159),
        Ok(PlaceParts {
            level: -1,
            zone: 2,
            place: 7,
        })
    );
}

#[test]
fn places_that_are_none(rt: HostRuntime) {
    assert_eq!(rt; place(-21, 27, 0), Err(Refusal::NoSuchLevel));
    assert_eq!(rt; place(300, 1, 1), Err(Refusal::NoSuchLevel));
    assert_eq!(rt; place(50, 300, 0), Err(Refusal::NoSuchZone));
    assert_eq!(rt; place(50, 26, 70000), Err(Refusal::NoSuchPlace));
    assert_eq!(rt; Place::parts(0), Err(Refusal::NotAKey));
    assert_eq!(rt; Refusal::NoSuchLevel.number(), 30);
}

#[test]
fn plates_and_their_order(rt: HostRuntime) -> Result<(), Fail> {
    assert_eq!(rt; Plate::make(b"B"), Ok(0x42000000000000));
    assert_eq!(rt; Plate::make(b"B7"), Ok(0x42370000000000));
    assert!(rt; Plate::comes_before(0x42000000000000, 0x42370000000000));
    assert_eq!(rt; Plate::make(b""), Err(Refusal::NoSuchLength));
    assert_eq!(rt; Plate::make(b"b2345678"), Err(Refusal::NoSuchLength));
    assert_eq!(rt; Plate::make(b"B-7"), Err(Refusal::NoSuchByte));
    match Plate::parts(0x42370000000000) {
        Ok(text) => {
            assert!(rt; text.bytes() == b"B7".as_slice());
            Ok(())
        },
        Err(refusal) => {
            assert_eq!(rt; refusal.number(), 0);
            Ok(())
        },
    }
}
