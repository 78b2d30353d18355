//! Tests of the journal: the bytes that a store writes, and the contents that `open` finds after a failed call, an
//! interrupted write or damage.
use crate::checks::expect_equal;
use mcs_disk::{
    Disk, FuseDisk, MemDisk, current_bytes_are_an_image,
    cut_is_before_a_stretch_or_since_its_start, cut_keeps_durable_bytes,
    cut_since_later_is_since_earlier, images_have_the_size_of_the_disk,
    reads_and_syncs_add_no_image, second_cut_adds_no_outcome,
};
use mcs_journal::{
    FILE_SIZE, Opened, Store, StoreFault, cut_leaves_durable_contents,
    cut_leaves_old_or_new_contents,
};
use std::alloc::Global;
use std::process::Abort;
use std::test::Fail;

const SNAPSHOT: [u8; 3] = [1, 2, 3];

const NEXT_SNAPSHOT: [u8; 2] = [8, 9];

const RECORD: [u8; 4] = [7, 3, 5, 9];

fn blank_disk(alloc: Global, rt: &impl Abort) -> MemDisk {
    MemDisk::new(alloc, FILE_SIZE).expect(rt, "memory")
}

fn created_store(alloc: Global, rt: &impl Abort) -> Store<MemDisk> {
    match Store::create(alloc, blank_disk(alloc, rt), &SNAPSHOT) {
        Ok(store) => store,
        Err(_) => panic!(rt; "create was refused"),
    }
}

/// Checks that the disk has the given bytes at an offset.
fn expect_bytes(rt: &impl Abort, disk: &mut MemDisk, at: usize, want: &[u8]) {
    let mut buffer = [0u8; 16];
    assert!(rt; want.len() <= 16 && at <= disk.size() && want.len() <= disk.size() - at);
    let found = &mut buffer[..want.len()];
    disk.read(at, found).expect(rt, "a read");
    assert_eq!(rt; &*found, want, "at {at}");
}

/// Overwrites bytes of a disk at an offset, as another program or an interrupted write would.
fn damage(rt: &impl Abort, disk: &mut MemDisk, at: usize, bytes: &[u8]) {
    assert!(rt; bytes.len() <= FILE_SIZE && at <= disk.size() && bytes.len() <= disk.size() - at);
    disk.write(at, bytes).expect(rt, "a write");
}

/// Checks that the disk stores the given snapshot and `records` copies of `RECORD`. Returns the
/// disk.
fn expect_contents<D: Disk + Drop>(
    alloc: Global,
    rt: &impl Abort,
    disk: D,
    snap: &[u8],
    records: usize,
) -> D {
    match Store::open(alloc, disk) {
        Ok(
            Opened {
                store,
                snap: found,
                records: list,
            },
        ) => {
            expect_equal(rt, found.bytes(), snap);
            expect_equal(rt, list.len(), records);
            expect_equal(rt, list.is_empty(), records == 0);
            for i in 0..list.len() {
                expect_equal(rt, list.get(i), RECORD.as_slice());
            }
            store.into_disk()
        }
        Err(_) => panic!(rt; "open was refused"),
    }
}

fn reopened_store(alloc: Global, rt: &impl Abort, disk: MemDisk) -> Store<MemDisk> {
    match Store::open(alloc, disk) {
        Ok(opened) => opened.store,
        Err(_) => panic!(rt; "open was refused"),
    }
}

fn expect_refusal<D: Disk + Drop>(alloc: Global, rt: &impl Abort, disk: D, want: StoreFault) {
    match Store::open(alloc, disk) {
        Ok(_) => panic!(rt; "the disk was taken"),
        Err((fault, _)) => expect_equal(rt, fault, want),
    }
}

#[test]
fn writes_the_format(rt: HostRuntime) -> Result<(), Fail> {
    let alloc = rt.alloc();
    let mut disk = created_store(alloc, &rt).into_disk();
    expect_bytes(&rt, &mut disk, 0, b"MCS4BEN1\0\0\0\0\0\0\0\0");
    expect_bytes(&rt, &mut disk, 16, &[0, 0, 0, 3, 1, 2, 3]);
    expect_bytes(&rt, &mut disk, 16_400, &[0]);

    let mut store = reopened_store(alloc, &rt, disk);
    assert!(rt; store.is_open() && store.has_room(RECORD.len()));
    store.append(&RECORD)?;
    let mut disk = expect_contents(alloc, &rt, store.into_disk(), &SNAPSHOT, 1);
    expect_bytes(&rt, &mut disk, 16_400, &[1, 0, 4, 7, 3, 5, 9, 0]);

    let mut store = reopened_store(alloc, &rt, disk);
    assert!(rt; store.is_open());
    store.replace(&NEXT_SNAPSHOT)?;
    assert!(rt; store.is_open() && store.has_room(RECORD.len()));
    store.append(&RECORD)?;
    let mut disk = expect_contents(alloc, &rt, store.into_disk(), &NEXT_SNAPSHOT, 1);
    expect_bytes(&rt, &mut disk, 8, &[1]);
    expect_bytes(&rt, &mut disk, 81_936, &[0, 0, 0, 2, 8, 9]);
    expect_bytes(&rt, &mut disk, 98_320, &[1, 0, 4, 7, 3, 5, 9, 0]);

    let mut store = reopened_store(alloc, &rt, disk);
    assert!(rt; store.is_open());
    store.replace(&SNAPSHOT)?;
    let mut disk = expect_contents(alloc, &rt, store.into_disk(), &SNAPSHOT, 0);
    expect_bytes(&rt, &mut disk, 8, &[0]);
    Ok(())
}

/// Creates a store, appends a record and replaces the snapshot, until a call fails. Every call
/// after the first `passed` calls fails. Returns the disk. The three operations make 5, 4 and 4
/// device calls.
fn run_until_fault(alloc: Global, rt: &impl Abort, passed: usize) -> FuseDisk {
    let mut store = match Store::create(
        alloc,
        FuseDisk::after(blank_disk(alloc, rt), passed),
        &SNAPSHOT,
    ) {
        Ok(store) => store,
        Err((fault, disk)) => {
            assert!(rt; fault == StoreFault::Device && passed < 5);
            return disk;
        }
    };
    assert!(rt; passed >= 5 && store.is_open() && store.has_room(RECORD.len()));
    let is_appended = store.append(&RECORD).is_ok();
    expect_equal(rt, is_appended, passed >= 9);
    if store.is_open() {
        let is_replaced = store.replace(&NEXT_SNAPSHOT).is_ok();
        expect_equal(rt, is_replaced, passed >= 13);
        expect_equal(rt, store.is_open(), is_replaced);
    }
    store.into_disk()
}

#[test]
fn failure_at_each_call_leaves_old_or_new_contents(rt: HostRuntime) {
    let alloc = rt.alloc();
    for passed in 0..4 {
        let mut disk = run_until_fault(alloc, &rt, passed);
        disk.mend();
        expect_refusal(alloc, &rt, disk, StoreFault::NotASession);
    }
    for (passed, records) in [
        (4, 0),
        (5, 0),
        (6, 0),
        (7, 0),
        (8, 1),
        (9, 1),
        (10, 1),
        (11, 1),
    ] {
        let mut disk = run_until_fault(alloc, &rt, passed);
        disk.mend();
        let _disk = expect_contents(alloc, &rt, disk, &SNAPSHOT, records);
    }
    for passed in [12, 13] {
        let mut disk = run_until_fault(alloc, &rt, passed);
        disk.mend();
        let _disk = expect_contents(alloc, &rt, disk, &NEXT_SNAPSHOT, 0);
    }
}

#[test]
fn creation_fails_if_one_call_fails(rt: HostRuntime) {
    let alloc = rt.alloc();
    for passed in 0..5 {
        match Store::create(
            alloc,
            FuseDisk::once(blank_disk(alloc, &rt), passed),
            &SNAPSHOT,
        ) {
            Ok(_) => panic!(rt; "the call {passed} did not fail"),
            Err((fault, disk)) => {
                expect_equal(&rt, fault, StoreFault::Device);
                if passed < 4 {
                    assert!(rt;
                        Store::create(alloc, disk, &SNAPSHOT).is_ok(),
                        "after {passed}"
                    );
                }
            }
        }
    }
}

#[test]
fn opens_after_an_interrupted_write(rt: HostRuntime) {
    let alloc = rt.alloc();
    for (at, written, snap, records) in [
        (16_401, &[255u8, 255, 7, 3, 5, 9, 1][..], &SNAPSHOT[..], 0),
        (16_400, &[37, 0, 4, 7, 3, 5, 9, 0][..], &SNAPSHOT[..], 0),
        (16_400, &[1, 0, 4, 7, 3, 5, 9, 0][..], &SNAPSHOT[..], 1),
        (8, &[0x7E][..], &SNAPSHOT[..], 0),
        (8, &[0x7F][..], &[][..], 0),
    ] {
        let mut disk = created_store(alloc, &rt).into_disk();
        damage(&rt, &mut disk, at, written);
        let _disk = expect_contents(alloc, &rt, disk, snap, records);
    }
}

#[test]
fn rejects_damaged_disks(rt: HostRuntime) {
    let alloc = rt.alloc();
    for (at, written, fault) in [
        (0, &[0u8][..], StoreFault::NotASession),
        (9, &[1][..], StoreFault::Damaged),
        (16, &[0, 0, 64, 0][..], StoreFault::Damaged),
        (16_400, &[1, 0, 0][..], StoreFault::Damaged),
        (16_400, &[1, 32, 1][..], StoreFault::Damaged),
    ] {
        let mut disk = created_store(alloc, &rt).into_disk();
        damage(&rt, &mut disk, at, written);
        expect_refusal(alloc, &rt, disk, fault);
    }
    let short_disk = MemDisk::new(alloc, FILE_SIZE - 1).expect(&rt, "memory");
    expect_refusal(alloc, &rt, short_disk, StoreFault::NotASession);
}

#[test]
fn creates_a_store_only_on_a_blank_disk(rt: HostRuntime) {
    let alloc = rt.alloc();
    let short_disk = MemDisk::new(alloc, FILE_SIZE - 1).expect(&rt, "memory");
    let used_disk = created_store(alloc, &rt).into_disk();
    for disk in [short_disk, used_disk] {
        match Store::create(alloc, disk, &SNAPSHOT) {
            Ok(_) => panic!(rt; "a disk that is not blank was taken"),
            Err((fault, _)) => expect_equal(&rt, fault, StoreFault::NotBlank),
        }
    }
}

/// Applies the laws of power cuts to the two types of in-memory disks. The laws are proved for all
/// types of disks.
#[test]
fn laws_of_power_cuts_hold_for_in_memory_disks(_rt: HostRuntime) {
    current_bytes_are_an_image::<FuseDisk>();
    images_have_the_size_of_the_disk::<FuseDisk>();
    reads_and_syncs_add_no_image::<FuseDisk>();
    cut_since_later_is_since_earlier::<MemDisk, FuseDisk>();
    cut_keeps_durable_bytes::<MemDisk, FuseDisk>();
    cut_is_before_a_stretch_or_since_its_start::<FuseDisk, MemDisk>();
    second_cut_adds_no_outcome::<FuseDisk, MemDisk, MemDisk>();
    cut_leaves_old_or_new_contents::<FuseDisk, MemDisk>();
    cut_leaves_durable_contents::<MemDisk, MemDisk>();
}
