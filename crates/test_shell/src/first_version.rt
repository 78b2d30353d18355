//! Tests of session files of version 1: opening a file converts it to version 2, and a device failure during the
//! conversion does not change the state in the file.
use crate::scripts::INPUTS;
use crate::sessions::{
    bytes_after_mending, expect, expect_state, failing_disk_of, file_of, open, overwrite,
    state_in_file,
};
use mcs_fixtures::files::NEW_BENCH;
use mcs_journal::{FILE_SIZE, StoreFault};
use std::alloc::Global;
use std::process::Abort;

/// The offset of the log of the first slot in a session file.
const LOG_OFFSET: usize = 16_400;

/// Returns a session file of version 1 with a new bench.
pub(crate) fn new_file(alloc: Global, rt: &impl Abort) -> Vec<u8> {
    let mut file = vec![in alloc; 0u8; FILE_SIZE].expect(rt, "memory");
    for (at, bytes) in NEW_BENCH {
        overwrite(rt, file.as_mut_slice(), at, bytes);
    }
    file
}

/// Returns a session file of version 1 with the records of the commands in `INPUTS`. Both versions encode these
/// commands in the same way.
fn file_of_inputs(alloc: Global, rt: &impl Abort) -> Vec<u8> {
    let mut file = new_file(alloc, rt);
    let file_of_version_2 = file_of(alloc, rt, &INPUTS, 0, b"");
    match file_of_version_2.get(LOG_OFFSET..LOG_OFFSET + 800) {
        Some(records) => overwrite(rt, file.as_mut_slice(), LOG_OFFSET, records),
        None => panic!(rt; "a file without a log"),
    }
    file
}

/// Opens a file on a disk whose first `calls` calls succeed, and whose later calls fail. Returns the bytes left
/// on the disk if the file does not open, or `None` if it opens.
fn bytes_after_failed_open(
    alloc: Global,
    rt: &impl Abort,
    file: &[u8],
    calls: usize,
) -> Option<Vec<u8>> {
    match open(alloc, failing_disk_of(alloc, rt, file, calls)) {
        Ok(_) => None,
        Err((fault, disk)) => {
            expect(rt, fault == StoreFault::Device, calls);
            Some(bytes_after_mending(alloc, rt, disk))
        }
    }
}

#[test]
fn a_stop_at_each_call_of_conversion(rt: HostRuntime) {
    let alloc = rt.alloc();
    let file = file_of_inputs(alloc, &rt);
    let Ok(state) = state_in_file(alloc, &rt, file.as_slice()) else {
        panic!(rt; "no state")
    };
    let mut stops = 0usize;
    for calls in 0..64usize {
        if let Some(bytes) = bytes_after_failed_open(alloc, &rt, file.as_slice(), calls) {
            stops = stops.saturating_add(1);
            expect_state(alloc, &rt, bytes.as_slice(), Some(&state), calls);
        }
    }
    assert!(rt; 4 < stops && stops < 64, "{stops}");
}
