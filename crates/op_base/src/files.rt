//! Files by name: a trait, files in memory and the files of the system.
ghost use Rattle.std.specs.Prelude.{◌≡◌, ℕ, ◌≤◌, ◌∷◌, [], ◌↔◌, Some, None, Option, List, IfOk, OnOk, OnErr, IsTrue, ◌≢◌};
ghost use Rattle.std.specs.Option.{option_copied};
ghost use Rattle.op_base.specs.FileAnswer.{Answers, file_named};
ghost use Rattle.op_base.specs.FaultPlan.{after_call, is_listed, next_number};
ghost use Rattle.op_base.specs.declared.files.NamedFile.{NamedFile};

use crate::{FaultPlan, NoMemory, Text};
use std::alloc::Global;
use std::fs::OpenFile;
use std::io::{ErrorKind, Read};
use std::{fs, io, rt};

/// What a map of files answers.
#[derive(Drop)]
pub enum FileAnswer {
    /// The file's bytes, at most as many as were asked for.
    Found(Text),
    /// The file has more bytes than were asked for.
    Long,
    /// There is no such file.
    Missing,
    /// The file could not be read.
    Failed,
}

/// Files by name.
pub trait Files {
    /// How often the files have failed.
    ghost faults: { Self → ℕ };

    /// What is stored, the newest file first, where that is told.
    ghost stored: { Self → Option (List NamedFile) };

    /// Reads the file of this name, if it has at most `most` bytes.
    fn read(&mut self, alloc: Global, name: &str, most: usize) -> Result<FileAnswer, NoMemory>
        ensures counts { faults self.old ≤ faults self.new }
        ensures unchanged { stored self.new ≡ stored self.old }
        ensures answers { IfOk result (Answers (stored self.old) name.now most (faults self.old) (faults self.new)) };
}

/// A file in memory.
#[derive(Drop)]
pub struct NamedFile {
    pub name: Text,
    pub bytes: Text,
}

/// Files in memory, some of whose reads fail.
#[derive(Drop)]
pub struct MemFiles {
    files: Vec<NamedFile>,
    plan: FaultPlan,
}

impl MemFiles {
    /// No file, and reads with the numbers in `fails` fail, counted from 0.
    pub fn new(alloc: Global, fails: Vec<u64>) -> MemFiles
        ensures files { result.files.items ≡ [] }
        ensures fails { result.plan.fails ≡ fails }
        ensures calls { result.plan.calls ≡ 0 }
        ensures faults { result.plan.faults ≡ 0 }
    {
        MemFiles {
            files: Vec::new(alloc),
            plan: FaultPlan::new(fails),
        }
    }

    /// Stores a file, in the place of an older one of this name.
    pub fn add(&mut self, name: &str, bytes: Vec<u8>) -> Result<(), NoMemory>
        ensures ok { OnOk result (self.new.files.items ≡ record { name = name.now; bytes = bytes.items } ∷ self.old.files.items) }
        ensures err { OnErr result (self.new.files.items ≡ self.old.files.items) }
        ensures plan { self.new.plan ≡ self.old.plan }
    {
        let alloc = *self.files.allocator();
        let name = Text::copy_of(alloc, name.as_bytes())?;
        let bytes = Text::from(bytes);
        self.files.insert(0, NamedFile { name, bytes })?;
        Ok(())
    }
}

/// The bytes of the first file of this name.
fn find_named<'a>(files: &'a [NamedFile], name: &[u8]) -> Option<&'a Text>
    ensures { option_copied result ≡ file_named files.now name.now }
{
    files
        .iter()
        .find(|file| file.name.as_slice() == name)
        .map(|file| &file.bytes)
}

/// What a read of the file of this name answers, if it does not fail.
fn read_named(
    alloc: Global,
    files: &[NamedFile],
    name: &[u8],
    most: usize,
) -> Result<FileAnswer, NoMemory>
    ensures { IfOk result (λ answer. Answers (Some files.now) name.now most 0 0 answer × (answer ≢ FileAnswer.Failed)) }
{
    match find_named(files, name) {
        None => Ok(FileAnswer::Missing),
        Some(bytes) => {
            let bytes = bytes.as_slice();
            if most < bytes.len() {
                Ok(FileAnswer::Long)
            } else {
                Ok(FileAnswer::Found(Text::copy_of(alloc, bytes)?))
            }
        }
    }
}

impl Files for MemFiles {
    ghost faults = { λ s. s.plan.faults };

    ghost stored = { λ s. Some s.files.items };

    fn read(&mut self, alloc: Global, name: &str, most: usize) -> Result<FileAnswer, NoMemory>
        ensures counts { self.old.plan.faults ≤ self.new.plan.faults }
        ensures unchanged { Some self.new.files.items ≡ Some self.old.files.items }
        ensures answers { IfOk result (Answers (Some self.old.files.items) name.now most self.old.plan.faults self.new.plan.faults) }

        // It fails exactly at the reads that are listed.
        ensures exactly { (result ≡ Ok FileAnswer.Failed) ↔ IsTrue (is_listed self.old.plan) }
        ensures numbered { self.new.plan.calls ≡ next_number self.old.plan.calls }
        // The list of failing calls stays, and the call and its fault are counted.
        ensures planned { self.new.plan ≡ after_call self.old.plan (is_listed self.old.plan) }
    {
        if self.plan.begins_failing_call() {
            self.plan.count_fault();
            return Ok(FileAnswer::Failed);
        }
        read_named(alloc, &self.files, name.as_bytes(), most)
    }
}

/// The files of the system. They tell nothing of what is stored.
#[derive(Drop)]
pub struct StdFiles<R: rt::Files + Drop> {
    runtime: R,
    faults: u64,
}

impl<R: rt::Files + Drop> StdFiles<R> {
    pub fn new(runtime: R) -> StdFiles<R>
        ensures { result.faults ≡ 0 }
    {
        StdFiles { runtime, faults: 0 }
    }
}

/// Reads a file of the system: all of it, if it has at most `most` bytes, else one byte more than that.
fn read_at_most(
    runtime: &impl rt::Files,
    alloc: Global,
    name: &str,
    most: usize,
) -> io::Result<Vec<u8>> {
    let mut bytes = Vec::new(alloc);
    let limit = (most as u64).saturating_add(1);
    fs::open(runtime, name)?
        .take(limit)
        .read_to_end(&mut bytes)?;
    Ok(bytes)
}

impl<R: rt::Files + Drop> Files for StdFiles<R> {
    ghost faults = { λ s. s.faults };

    ghost stored = { λ _. None };

    fn read(&mut self, alloc: Global, name: &str, most: usize) -> Result<FileAnswer, NoMemory> {
        match read_at_most(&self.runtime, alloc, name, most) {
            Ok(bytes) if bytes.len() <= most => Ok(FileAnswer::Found(Text::from(bytes))),
            Ok(_) => Ok(FileAnswer::Long),
            Err(error) => match error.kind() {
                ErrorKind::NotFound | ErrorKind::NotADirectory => Ok(FileAnswer::Missing),
                ErrorKind::OutOfMemory => Err(NoMemory),
                _ => {
                    self.faults = self.faults.saturating_add(1);
                    Ok(FileAnswer::Failed)
                }
            },
        }
    }
}
