// Files that are kept in one block of memory, for the stores in memory.
ghost use Rattle.std.specs.Bool.{OnTrue, OnFalse};
ghost use Rattle.std.specs.Prelude.{◌≡◌, ℕ, ◌+◌, ◌-◌, ◌<◌, ◌≤◌, ◌^◌, true, List, [], ◌++◌, length, take, drop, IfOk, position, option_copied, slice_index_or, vec_len, vec_capacity};
ghost use Rattle.gc_outside.specs.KeptFiles.{Kept, file_of, without, with_empty, with_grown, total_length, spare_room, has_place, room_for, can_add, with_file};
ghost use Rattle.gc_outside.specs.declared.kept_files.Entry.{Entry};
ghost use Rattle.gc_outside.specs.Arena.{is_named, entries_length, with_longer};

use arrayvec::{ArrayString, ArrayVec};
use gc_base::NoMemory;
use std::alloc::Global;
use std::marker::Model;

/// How many files are kept at most.
const MOST_FILES: usize = 16;

/// How many bytes a name has at most.
const LONGEST_NAME: usize = 64;

// The name of a file, and how many bytes it has.
#[derive(Clone, Copy, Default)]
pub(crate) struct Entry {
    name: ArrayString<LONGEST_NAME>,
    length: usize,
}

/// At most 16 files, with names of at most 64 bytes and as many bytes in all as there is room for.
///
/// All bytes lie in one block, which is taken when it is made. The newest file is the last there, so that it may grow.
#[derive(Drop)]
pub(crate) struct KeptFiles {
    // The newest first.
    entries: ArrayVec<Entry, MOST_FILES>,
    bytes: Vec<u8>,
    room: usize,
}

impl Model for KeptFiles {
    ghost use Rattle.gc_outside.specs.KeptFiles.{Kept};

    ghost Value = { Kept };

    ghost use Rattle.gc_outside.specs.Arena.{files_in, IsShared};

    ghost view = { λ a. record { files = files_in a.bytes.items a.entries.items; room = a.room } };

    ghost invariant = { IsShared };
}

// The place of the entry of a name.
fn place(entries: &[Entry], name: &str) -> Option<usize>
    ensures { result ≡ position (is_named name.now) entries.now }
{
    entries.iter().position(|entry| entry.name.as_str() == name)
}

// How many bytes the files of these entries have.
fn entries_length(entries: &[Entry]) -> usize
    requires { entries_length entries.now < 2 ^ 64 }
    ensures { result ≡ entries_length entries.now }
{
    let mut length = 0;
    for entry in entries {
        length += entry.length;
    }
    length
}

// Where the file of an entry begins and ends.
fn span(entries: &[Entry], at: usize) -> (usize, usize)
    requires entry { at < length entries.now }
    requires fits { entries_length entries.now < 2 ^ 64 }
    ensures start { result.0 ≡ entries_length (drop (at + 1) entries.now) }
    ensures end { (d : Entry) → result.1 ≡ result.0 + (slice_index_or entries.now at d).length }
    ensures ordered { result.0 ≤ result.1 }
    ensures within { result.1 ≤ entries_length entries.now }
{
    let start = entries_length(&entries[at + 1..]);
    (start, start + entries[at].length)
}

// The newest file gets longer.
fn lengthen(entries: &mut [Entry], by: usize)
    requires started { 0 < length entries.old }
    requires fits { entries_length entries.old + by < 2 ^ 64 }
    ensures { entries.new ≡ with_longer by entries.old }
{
    entries[0].length += by;
}

// Takes the bytes between two places out, so that the later ones follow on the earlier.
fn close_gap(bytes: &mut Vec<u8>, start: usize, end: usize)
    requires ordered { start ≤ end }
    requires within { end ≤ vec_len bytes.old }
    ensures items { bytes.new.items ≡ take start bytes.old.items ++ drop end bytes.old.items }
    ensures capacity { vec_capacity bytes.new ≡ vec_capacity bytes.old }
{
    let rest = bytes.len() - (end - start);
    bytes[start..].rotate_left(end - start);
    bytes.truncate(rest);
}

impl KeptFiles {
    /// No file, and memory for as many bytes as there is to be room for.
    pub(crate) fn new(alloc: Global, room: usize) -> Result<KeptFiles, NoMemory>
        ensures { IfOk result (λ k. k ≡ record { files = []; room = room }) }
    {
        Ok(KeptFiles {
            entries: ArrayVec::new(),
            bytes: Vec::with_capacity(alloc, room)?,
            room,
        })
    }

    /// The bytes of a file, if it is there.
    pub(crate) fn file(&self, name: &str) -> Option<&[u8]>
        ensures { option_copied result ≡ file_of self.now.files name.now }
    {
        let entries = self.entries.as_slice();
        let at = place(entries, name)?;
        let (start, end) = span(entries, at);
        Some(&self.bytes[start..end])
    }

    /// How many more bytes fit.
    pub(crate) fn spare_room(&self) -> usize
        ensures value { result ≡ spare_room self.now }
        ensures whole { total_length self.now.files + result ≡ self.now.room }
    {
        self.room - self.bytes.len()
    }

    /// Whether a file of this name may be started.
    pub(crate) fn has_place(&self, name: &str) -> bool
        ensures { result ≡ has_place name.now self.now.files }
    {
        name.len() <= LONGEST_NAME && (self.file(name).is_some() || self.entries.len() < MOST_FILES)
    }

    // Takes the file of this name out.
    fn take_out(&mut self, name: &str)
        ensures others { self.new ≡ record self.old { files = without name.now self.old.files } }
        ensures bounded { length self.old.files ≤ MOST_FILES }
    {
        let Some(at) = place(self.entries.as_slice(), name) else {
            return;
        };
        let (start, end) = span(self.entries.as_slice(), at);
        self.entries.remove(at);
        close_gap(&mut self.bytes, start, end);
    }

    /// Puts an empty file of this name in place of the one that had it.
    pub(crate) fn start(&mut self, name: &str)
        requires { has_place name.now self.old.files ≡ true }
        ensures { self.new ≡ record self.old { files = with_empty name.now self.old.files } }
    {
        self.take_out(name);
        let mut entry = Entry::default();
        entry.name.push_str(name);
        self.entries.insert(0, entry);
    }

    /// Appends to the newest file.
    pub(crate) fn append(&mut self, bytes: &[u8])
        requires started { 0 < length self.old.files }
        requires fits { length bytes.now ≤ spare_room self.old }
        ensures { self.new ≡ record self.old { files = with_grown bytes.now self.old.files } }
    {
        lengthen(self.entries.as_mut_slice(), bytes.len());
        let _ = self.bytes.extend_from_slice(bytes);
    }

    /// Appends to the newest file as far as there is room, and says how many bytes there was none for.
    pub(crate) fn append_fitting(&mut self, bytes: &[u8]) -> usize
        requires { 0 < length self.old.files }
        ensures over { result ≡ length bytes.now - spare_room self.old }
        ensures exact { self.new ≡ record self.old { files = with_grown (take (spare_room self.old) bytes.now) self.old.files } }
    {
        let count = bytes.len().min(self.spare_room());
        self.append(&bytes[..count]);
        bytes.len() - count
    }

    // How many bytes a file of this name may have.
    fn room_for(&self, name: &str) -> usize
        ensures { result ≡ room_for name.now self.now }
    {
        let had = self.file(name).unwrap_or(&[]).len();
        self.room - (self.bytes.len() - had)
    }

    /// Puts a file whole, where it has its place and its bytes fit.
    pub(crate) fn add(&mut self, name: &str, bytes: &[u8]) -> bool
        ensures answer { result ≡ can_add name.now bytes.now self.old }
        ensures fits { OnTrue result (self.new ≡ record self.old { files = with_file name.now bytes.now self.old.files }) }
        ensures refused { OnFalse result (self.new ≡ self.old) }
    {
        if !self.has_place(name) || bytes.len() > self.room_for(name) {
            return false;
        }
        self.start(name);
        self.append(bytes);
        true
    }
}
