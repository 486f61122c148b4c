ghost use Rattle.std.specs.Prelude.{◌≡◌, [], Err, OnOk};
ghost use Rattle.qt_outside.specs.Causes.{FetchCause};
ghost use Rattle.qt_adapters.specs.Reading.{AppendsUpTo, ReadsUpTo};

use qt_outside::faults::FetchFault;
use qt_outside::shelf::Shelf;
use std::alloc::Global;
use std::fs;
use std::io::Read;
use std::marker::Model;
use std::rt::Files;

/// The files of the system by their paths. The shelf doesn't tell what they hold; contracts see its count of faults and
/// the failed name.
#[derive(Drop)]
pub struct FileShelf<'a, R: Files> {
    files: &'a R,
    faults: u64,
    failed_name: String,
    alloc: Global,
}

impl<'a, R: Files> Model for FileShelf<'a, R> {
    ghost use Rattle.std.specs.Prelude.{string_bytes};
    ghost use Rattle.qt_adapters.specs.Adapters.{FileShelfState};

    ghost Value = { FileShelfState };

    ghost view = { λ s. record { faults = s.faults; failed = string_bytes s.failed_name } };
}

impl<'a, R: Files> FileShelf<'a, R> {
    /// A shelf that hasn't failed.
    pub fn new(alloc: Global, files: &'a R) -> FileShelf<'a, R>
        ensures { result ≡ record { faults = 0; failed = [] } }
    {
        FileShelf {
            files,
            faults: 0,
            failed_name: String::new(alloc),
            alloc,
        }
    }

    // Counts a fault at that name and keeps the name, or finds no memory for the name.
    fn fail(&mut self, name: &str) -> FetchFault
        ensures { FetchCause self.old.faults self.new.faults self.old.failed self.new.failed name.now (Err result) }
    {
        let Ok(copy) = String::from_str(self.alloc, name) else {
            return FetchFault::OutOfMemory;
        };
        self.failed_name = copy;
        self.faults = self.faults.saturating_add(1);
        FetchFault::Failed
    }
}

/// Why a file wasn't read.
enum ReadFault {
    Failed,
    OutOfMemory,
}

/// Appends what is left of a reader, up to so many bytes.
fn read_up_to<F: Read>(file: &mut F, most: usize, into: &mut Vec<u8>) -> Result<(), ReadFault>
    ensures some { AppendsUpTo most into.old.items into.new.items }
    ensures ok { OnOk result (ReadsUpTo most (F.remaining file.old) (F.remaining file.new) into.old.items into.new.items) }
{
    let mut buffer = [0u8; 4096];
    let mut left = most;
    while left > 0 {
        let want = left.min(4096);
        let count = match file.read(&mut buffer[..want]) {
            Ok(0) => return Ok(()),
            Ok(count) => count,
            Err(_) => return Err(ReadFault::Failed),
        };
        if into.extend_from_slice(&buffer[..count]).is_err() {
            return Err(ReadFault::OutOfMemory);
        }
        left -= count;
    }
    Ok(())
}

impl<'a, R: Files> Shelf for FileShelf<'a, R> {
    ghost use Rattle.std.specs.Prelude.{None};

    ghost holds = { λ _. None };

    ghost faults = { λ s. s.faults };

    ghost failed = { λ s. s.failed };

    fn fetch(&mut self, name: &str, most: usize, into: &mut Vec<u8>) -> Result<(), FetchFault> {
        let Ok(mut file) = fs::open(self.files, name) else {
            return Err(self.fail(name));
        };
        match read_up_to(&mut file, most, into) {
            Ok(()) => Ok(()),
            Err(ReadFault::Failed) => Err(self.fail(name)),
            Err(ReadFault::OutOfMemory) => Err(FetchFault::OutOfMemory),
        }
    }
}
