//! Tests in which the disk fails during the migration of a session of version 1. Opening such a
//! session migrates it.
use crate::checks::expect_equal;
use crate::session_helpers::{
    blank_disk, expect_bytes, expect_register, open, overwrite, repaired_disk,
};
use mcs_disk::{FuseDisk, MemDisk};
use mcs_fixtures::files::{NEW_BENCH, POKE_RECORD};
use mcs_journal::StoreFault;
use std::alloc::Global;
use std::process::Abort;

const SECOND_SLOT: usize = 81_936;

/// Returns a disk with a file of version 1: a new bench, and the record of the command `poke r5 9`.
fn version_1_disk(alloc: Global, rt: &impl Abort) -> MemDisk {
    let mut disk = blank_disk(alloc, rt);
    for (at, bytes) in NEW_BENCH {
        overwrite(rt, &mut disk, at, bytes);
    }
    overwrite(rt, &mut disk, POKE_RECORD.0, POKE_RECORD.1);
    disk
}

/// Opens the file of version 1 on a disk on which every call after the first `calls` calls fails.
/// Returns the repaired disk if opening fails, or `None` if the file opens.
fn disk_after_failure(alloc: Global, rt: &impl Abort, calls: usize) -> Option<FuseDisk> {
    let disk = FuseDisk::after(version_1_disk(alloc, rt), calls);
    match open(alloc, disk) {
        Ok(_) => None,
        Err((fault, disk)) => {
            expect_equal(rt, fault, StoreFault::Device);
            Some(repaired_disk(disk))
        }
    }
}

/// Returns the number of device calls that opening the file needs.
fn count_calls(alloc: Global, rt: &impl Abort) -> usize {
    let mut calls = 0usize;
    for _ in 0..64 {
        if disk_after_failure(alloc, rt, calls).is_some() {
            calls = calls.saturating_add(1);
        }
    }
    assert!(rt; 4 < calls && calls < 64, "{calls}");
    calls
}

/// Opens the file of version 1 on a disk that fails after `calls - before` calls, and returns the
/// repaired disk. `calls` is the number of device calls that opening the file needs.
fn disk_after_failure_before(
    alloc: Global,
    rt: &impl Abort,
    calls: usize,
    before: usize,
) -> FuseDisk {
    assert!(rt; before <= calls);
    let call = calls - before;
    match disk_after_failure(alloc, rt, call) {
        Some(disk) => disk,
        None => panic!(rt; "the call {call} did not fail"),
    }
}

/// Checks the length of the new snapshot, and the selector, on a disk. The last `before` calls of
/// opening the file were not made on this disk. The last four calls of opening write the snapshot,
/// sync it, write the selector, and sync it.
fn expect_stage(rt: &impl Abort, disk: &mut FuseDisk, before: usize) {
    let (length, selector) = match before {
        1 => ([0, 0, 0x1A, 0xA8], 1),
        2 | 3 => ([0, 0, 0x1A, 0xA8], 0),
        _ => ([0; 4], 0),
    };
    expect_bytes(rt, disk, SECOND_SLOT, &length);
    expect_bytes(rt, disk, 8, &[selector]);
}

#[test]
fn failure_at_each_call_keeps_the_session(rt: HostRuntime) {
    let alloc = rt.alloc();
    let calls = count_calls(alloc, &rt);
    for call in 0..calls {
        let mut disk = disk_after_failure_before(alloc, &rt, calls, calls - call);
        expect_stage(&rt, &mut disk, calls - call);
        expect_register(alloc, &rt, disk, 1, (5, 9));
    }
}

#[test]
fn opens_with_any_torn_selector(rt: HostRuntime) {
    let alloc = rt.alloc();
    let calls = count_calls(alloc, &rt);
    for selector in [0x7F, 0x40] {
        let mut disk = disk_after_failure_before(alloc, &rt, calls, 2);
        overwrite(&rt, &mut disk, 8, &[selector]);
        expect_register(alloc, &rt, disk, 1, (5, 9));
    }
}
