//! A disk over a file. It counts its calls and faults, and tells nothing of what the file holds.
ghost use Rattle.std.specs.Prelude.{◌≡◌, ◌+◌, ◌*◌, ◌-◌, ◌^◌, ◌≤◌, ◌<◌, Some, length, min, IsSome, OnOk, OnErr};
ghost use Rattle.std.specs.Io.KnownBytes.{Appends};
ghost use Rattle.std.specs.Io.Seek.{MovesTo};
ghost use Rattle.xr_base.specs.Image.{part};
ghost use Rattle.xr_base.specs.declared.geometry.TheConstants.{SECTOR_BYTES};
ghost use Rattle.xr_disk.specs.Crash.{IsSectorRange};
ghost use Rattle.xr_disk.specs.Disk.{IsAtRest, IsSame, IsCall, MayTear, CoversNoMore, Overlays};
ghost use Rattle.xr_disk.specs.FileAccess.{Fills, ReadsSectors, WritesSectors, UsesFile};
ghost use Rattle.xr_disk.specs.FileDisk.{untold, nothing_seen};
ghost use Rattle.xr_disk.specs.FileDiskView.{file_view, file_of, runtime_of, path_of, makes_file};
ghost use Rattle.xr_disk.specs.Plan.{next_count};
ghost use Rattle.xr_disk.specs.Seen.{WasSeen};

use crate::Disk;
use crate::standard::read_retrying;
use std::fs::{OpenFile, OpenOptions};
use std::io::{Read, Seek, SeekFrom, Write};
use std::rt::Files;
use xr_base::Fault;
use xr_base::geometry::SECTOR_BYTES;

/// A disk over the file at a path, which is opened for reading and writing at the first call. Bytes past the file's end
/// read as zeros. Whatever goes wrong is a fault.
#[derive(Drop)]
pub struct FileDisk<R: Files + Drop> {
    file: LazyFile<R>,
    moment: u64,
    faults: u64,
}

impl<R: Files + Drop> FileDisk<R> {
    /// A disk over the file at the path, which is made where it is missing only if `create` is true.
    pub fn new(rt: R, path: String, create: bool) -> FileDisk<R>
        ensures moment { (file_view result).moment ≡ 0 }
        ensures faults { (file_view result).faults ≡ 0 }
        ensures runtime { runtime_of result ≡ rt }
        ensures path { path_of result ≡ path }
        ensures create { makes_file result ≡ create }
    {
        FileDisk {
            file: LazyFile {
                rt,
                path,
                create,
                file: None,
            },
            moment: 0,
            faults: 0,
        }
    }
}

impl<R: Files + Drop> Disk for FileDisk<R> {
    ghost view = { λ d. untold d.moment d.faults };

    ghost seen_may_stay = { λ d s seen. nothing_seen d.moment d.faults s seen };

    ghost counts_now = { λ d t c within left. left };

    ghost only_now = { λ d c left. left };

    ghost narrows = { λ d t u c earlier left. left };

    ghost sized = { λ d c left. absurd left };

    fn read(&mut self, at: u32, out: &mut [u8]) -> Result<(), Fault>
        requires { IsSectorRange at (length out.old) }
        ensures bytes { OnOk result (WasSeen (file_view self.old).seen (λ s. out.new ≡ part (SECTOR_BYTES * at) (length out.old) s)) }
        ensures same { IsSame (file_view self.old) (file_view self.new) }
        ensures call { IsCall (file_view self.old) (file_view self.new) result }

        // Exactly what is counted, and what was read of the file.
        ensures counted { OnErr result ((file_view self.new).faults ≡ next_count (file_view self.old).faults) }
        ensures file { OnOk result (UsesFile (ReadsSectors R.File.stream_position R.File.remaining at out.new)
            (file_of self.old) (file_of self.new)) }
    {
        tick(&mut self.moment, &mut self.faults)?;
        let outcome = self.file.read_at(at, out);
        counted(&mut self.faults, outcome)
    }

    fn write(&mut self, at: u32, bytes: &[u8]) -> Result<(), Fault>
        requires { IsSectorRange at (length bytes.now) }
        ensures written { OnOk result (Overlays (SECTOR_BYTES * at) bytes.now (file_view self.old) (file_view self.new)) }
        ensures torn { MayTear (SECTOR_BYTES * at) bytes.now (file_view self.old) (file_view self.new) }
        ensures call { IsCall (file_view self.old) (file_view self.new) result }

        // Exactly what is counted, and what was written to the file.
        ensures counted { OnErr result ((file_view self.new).faults ≡ next_count (file_view self.old).faults) }
        ensures file { OnOk result (UsesFile (WritesSectors R.File.stream_position R.File.contents at bytes.now)
            (file_of self.old) (file_of self.new)) }
    {
        tick(&mut self.moment, &mut self.faults)?;
        let outcome = self.file.write_at(at, bytes);
        counted(&mut self.faults, outcome)
    }

    /// Syncs the file's contents and length to its device.
    fn sync(&mut self) -> Result<(), Fault>
        ensures durable { OnOk result (WasSeen (file_view self.old).seen (λ s. IsAtRest s (file_view self.new))) }
        ensures seen { OnOk result ((file_view self.new).seen ≡ (file_view self.old).seen) }
        ensures failed { OnErr result (CoversNoMore (file_view self.old) (file_view self.new)) }
        ensures call { IsCall (file_view self.old) (file_view self.new) result }

        // Exactly what is counted.
        ensures counted { OnErr result ((file_view self.new).faults ≡ next_count (file_view self.old).faults) }
    {
        tick(&mut self.moment, &mut self.faults)?;
        let outcome = self.file.sync();
        counted(&mut self.faults, outcome)
    }

    fn moment(&self) -> u64 {
        self.moment
    }

    fn faults(&self) -> u64 {
        self.faults
    }
}

/// Moves the clock on. At its end the call is a fault.
fn tick(moment: &mut u64, faults: &mut u64) -> Result<(), Fault>
    ensures ok { OnOk result ((moment.old < 2 ^ 64 - 1) × (moment.new ≡ moment.old + 1) × (faults.new ≡ faults.old)) }
    ensures err { OnErr result ((moment.old ≡ 2 ^ 64 - 1) × (moment.new ≡ moment.old) × (faults.new ≡ next_count faults.old)) }
    ensures clock { moment.new ≡ min (moment.old + 1) (2 ^ 64 - 1) }
    ensures kept { faults.old ≤ faults.new }
{
    match moment.checked_add(1) {
        Some(next) => {
            *moment = next;
            Ok(())
        }
        None => {
            *faults = faults.saturating_add(1);
            Err(Fault)
        }
    }
}

/// Counts a fault where the outcome is one.
fn counted(faults: &mut u64, outcome: Result<(), Fault>) -> Result<(), Fault>
    ensures same { result ≡ outcome }
    ensures ok { OnOk result (faults.new ≡ faults.old) }
    ensures err { OnErr result (faults.new ≡ next_count faults.old) }
    ensures kept { faults.old ≤ faults.new }
{
    if outcome.is_err() {
        *faults = faults.saturating_add(1);
    }
    outcome
}

/// A file that is opened when it is first needed.
#[derive(Drop)]
struct LazyFile<R: Files + Drop> {
    rt: R,
    path: String,
    create: bool,
    file: Option<R::File>,
}

impl<R: Files + Drop> LazyFile<R> {
    fn open(&mut self) -> Result<(), Fault>
        ensures is_open { OnOk result (IsSome self.new.file) }
        ensures same { IsSome self.old.file → self.new.file ≡ self.old.file }
    {
        if self.file.is_none() {
            let mut options = OpenOptions::new();
            options.read(true).write(true).create(self.create);
            match options.open(&self.rt, self.path.as_str()) {
                Ok(file) => self.file = Some(file),
                Err(_) => return Err(Fault),
            }
        }
        Ok(())
    }

    fn read_at(&mut self, at: u32, out: &mut [u8]) -> Result<(), Fault>
        ensures { OnOk result (UsesFile (ReadsSectors R.File.stream_position R.File.remaining at out.new)
            self.old.file self.new.file) }
    {
        self.open()?;
        match &mut self.file {
            Some(file) => read_sectors(file, at, out),
            None => Err(Fault),
        }
    }

    fn write_at(&mut self, at: u32, bytes: &[u8]) -> Result<(), Fault>
        ensures { OnOk result (UsesFile (WritesSectors R.File.stream_position R.File.contents at bytes.now)
            self.old.file self.new.file) }
    {
        self.open()?;
        match &mut self.file {
            Some(file) => write_sectors(file, at, bytes),
            None => Err(Fault),
        }
    }

    fn sync(&mut self) -> Result<(), Fault> {
        self.open()?;
        match &self.file {
            Some(file) => file.sync_all().map_err(|_| Fault),
            None => Err(Fault),
        }
    }
}

/// Reads sectors of the file, from sector `at` on.
fn read_sectors<F: Read + Seek>(file: &mut F, at: u32, out: &mut [u8]) -> Result<(), Fault>
    ensures { OnOk result (ReadsSectors F.stream_position F.remaining at out.new file.old file.new) }
{
    seek(file, at)?;
    read_all(file, out)
}

/// Writes sectors of the file, from sector `at` on.
fn write_sectors<F: Seek + Write>(file: &mut F, at: u32, bytes: &[u8]) -> Result<(), Fault>
    ensures { OnOk result (WritesSectors F.stream_position F.contents at bytes.now file.old file.new) }
{
    seek(file, at)?;
    write_all(file, bytes)
}

/// Goes to a sector of the file.
fn seek<F: Seek>(file: &mut F, at: u32) -> Result<(), Fault>
    ensures { MovesTo (F.stream_position file.old) (F.stream_position file.new) (SECTOR_BYTES * at) result }
{
    match file.seek(SeekFrom::Start(SECTOR_BYTES as u64 * u64::from(at))) {
        Ok(_) => Ok(()),
        Err(_) => Err(Fault),
    }
}

/// Fills the buffer, with zeros where the file has ended.
fn read_all<F: Read>(file: &mut F, out: &mut [u8]) -> Result<(), Fault>
    ensures { OnOk result (Fills (F.remaining file.old) (F.remaining file.new) out.new) }
{
    let mut filled = 0;
    while filled < out.len() {
        let n = read_retrying(file, &mut out[filled..])?;
        if n == 0 {
            out[filled..].fill(0);
            return Ok(());
        }
        filled += n;
    }
    Ok(())
}

/// Writes all the bytes.
fn write_all<F: Write>(file: &mut F, bytes: &[u8]) -> Result<(), Fault>
    ensures { OnOk result (Appends (F.contents file.old) (F.contents file.new) bytes.now) }
{
    match file.write_all(bytes) {
        Ok(_) => Ok(()),
        Err(_) => Err(Fault),
    }
}
