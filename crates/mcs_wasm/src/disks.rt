//! Sessions on in-memory disks. The functions fill a disk with a copy of a file's bytes, and write the disk back to the
//! file.
ghost use Rattle.std.specs.Prelude.{◌≡◌, length, IfErr, IfOk, IsTrue};
ghost use Rattle.mcs_disk.specs.Disk.{bytes_of, size_of};
ghost use Rattle.mcs_disk.specs.States.{IsFresh, mem_disk_state};
ghost use Rattle.mcs_wasm.specs.Page.{IsFileRefused, ResumesSession, SettlesTo};

use mcs_disk::MemDisk;
use mcs_journal::StoreFault;
use mcs_session::session::Session;
use std::alloc::{AllocError, Global};

/// Creates a disk that holds a copy of these bytes. Fails if memory runs out.
fn disk_of(alloc: Global, file: &[u8]) -> Result<MemDisk, AllocError>
    ensures { IfOk result (λ disk. IsFresh file.now (mem_disk_state disk)) }
{
    // `to_vec` would copy byte by byte. This code fills the vector with zeros and then copies all bytes at once.
    let mut bytes = vec![in alloc; 0u8; file.len()]?;
    bytes.copy_from_slice(file);
    Ok(MemDisk::with_bytes(bytes))
}

/// Opens the session in a file, on a disk with a copy of the file's bytes. Fails if the bytes do not hold a session
/// or if memory runs out.
pub(crate) fn resume(alloc: Global, file: &[u8]) -> Result<Session<MemDisk>, StoreFault>
    ensures resumed { IfOk result (λ session. ResumesSession file.now session) }
    ensures refused { IfErr result (λ fault. IsFileRefused fault file.now) }
{
    let Ok(disk) = disk_of(alloc, file) else {
        return Err(StoreFault::NoMemory);
    };
    match Session::open(alloc, disk) {
        Ok(session) => Ok(session),
        Err((StoreFault::NotASession, _)) => Err(StoreFault::NotASession),
        Err((StoreFault::Damaged, _)) => Err(StoreFault::Damaged),
        // an in-memory disk has no I/O errors, and `open` never fails with `NotBlank`
        Err((StoreFault::Device | StoreFault::NotBlank | StoreFault::NoMemory, _)) => Err(
            StoreFault::NoMemory,
        ),
    }
}

/// Copies the bytes of a disk to a file of the same size.
pub(crate) fn write_back(disk: &MemDisk, file: &mut [u8])
    requires size { length file.old ≡ size_of (mem_disk_state disk.now) }
    ensures written { file.new ≡ bytes_of (mem_disk_state disk.now) }
{
    file.copy_from_slice(disk.bytes());
}

/// Replaces the records of an open session with a snapshot, and copies the session's disk to a file of the same size.
/// This cannot fail, because an in-memory disk has no I/O errors.
pub(crate) fn snapshot_into(mut session: Session<MemDisk>, file: &mut [u8])
    requires open { IsTrue session.live }
    requires size { length file.old ≡ size_of (mem_disk_state session.disk) }
    ensures settled { SettlesTo session file.new }
{
    let Ok(()) = session.settle() else {
        unreachable!()
    };
    write_back(&session.into_disk(), file);
}
