// A store in memory, for tests.
ghost use Rattle.std.specs.Prelude.{◌≡◌, ℕ, ◌≤◌, false, [], Some, None, IfOk, OnOk, OnErr, IsSome, IsErrOf, is_ok, is_err, option_copied, ◌↔◌};
ghost use Rattle.gc_outside.specs.Faults.{Rose, CountsFaultIf, counted};
ghost use Rattle.gc_outside.specs.Store.{AnswersFile, IsWithin, is_failed, ChangesFile, LeavesOrEmpties, AppendsToOpen, SameFiles, CutsOpen};
ghost use Rattle.gc_outside.specs.PlannedFaults.{no_plan, has_free_number, with_failing};
ghost use Rattle.gc_outside.specs.KeptFiles.{file_of, can_add};
ghost use Rattle.gc_outside.specs.MemStore.{open_name, goes_well, got, begins, begun, pieces, pieced, ended, added};

use crate::answer::answer;
use crate::faults::Failed;
use crate::kept_files::KeptFiles;
use crate::planned_faults::PlannedFaults;
use crate::store::{GetError, Got, Store};
use gc_base::NoMemory;
use std::alloc::Global;
use std::marker::Model;

/// Keeps at most 16 files, with names of at most 64 bytes, and fails where it is told to or has no more room. It tells all.
#[derive(Drop)]
pub struct MemStore {
    kept: KeptFiles,
    is_open: bool,
    plan: PlannedFaults,
    faults: u64,
}

impl Model for MemStore {
    ghost use Rattle.gc_outside.specs.MemStore.{MemStoreState};

    ghost Value = { MemStoreState };

    ghost view = { λ s. record { kept = s.kept; is_open = s.is_open; plan = s.plan; faults = s.faults } };
}

impl MemStore {
    /// An empty store. It takes memory for files of `room` bytes in all at once.
    pub fn new(alloc: Global, room: usize) -> Result<MemStore, NoMemory>
        ensures { IfOk result (λ s. s ≡ record { kept = record { files = []; room = room }; is_open = false; plan = no_plan; faults = 0 }) }
    {
        Ok(MemStore {
            kept: KeptFiles::new(alloc, room)?,
            is_open: false,
            plan: PlannedFaults::new(),
            faults: 0,
        })
    }

    /// The bytes of a file, if it is there.
    pub fn file(&self, name: &str) -> Option<&[u8]>
        ensures { option_copied result ≡ file_of self.now.kept.files name.now }
    {
        self.kept.file(name)
    }

    /// Puts a file whole, and ends an open put first, as it is. False where the name, its place or the bytes don't fit.
    pub fn add(&mut self, name: &str, bytes: &[u8]) -> bool
        ensures answer { result ≡ can_add name.now bytes.now self.old.kept }
        ensures exact { self.new ≡ added name.now bytes.now self.old }
    {
        let fits = self.kept.add(name, bytes);
        self.is_open = self.is_open && !fits;
        fits
    }

    /// The call of this number, counted from 0 over all four calls of a store, is to fail. False where 16 such numbers are kept.
    pub fn fail_at(&mut self, call: u64) -> bool
        ensures answer { result ≡ has_free_number self.old.plan }
        ensures exact { self.new ≡ record self.old { plan = with_failing call self.old.plan } }
    {
        self.plan.fail_at(call)
    }

    // Counts a fault.
    fn failed(&mut self) -> Failed
        ensures exact { self.new ≡ record self.old { faults = counted self.old.faults } }
        ensures count { self.old.faults ≤ self.new.faults }
    {
        self.faults = self.faults.saturating_add(1);
        Failed
    }
}

impl Store for MemStore {
    ghost files = { λ s. Some (file_of s.kept.files) };

    ghost open_put = { open_name };

    ghost faults = { λ s. s.faults };

    fn get(&mut self, alloc: Global, name: &str, most: usize) -> Result<Got, GetError>
        ensures failure { IsErrOf result GetError.Failed ↔ (goes_well self.old ≡ false) }
        ensures exact { self.new ≡ got self.old }

        // As of every store.
        ensures answer { IfOk result (AnswersFile most (file_of self.old.kept.files name.now)) }
        ensures within { IfOk result (IsWithin most) }
        ensures cause { IsErrOf result GetError.Failed → Rose self.old.faults self.new.faults }
        ensures count { self.old.faults ≤ self.new.faults }
        ensures counted { CountsFaultIf (is_failed result) self.old.faults self.new.faults }
    {
        if self.plan.next_fails() {
            self.failed();
            return Err(GetError::Failed);
        }
        answer(self.kept.file(name), alloc, most)
    }

    fn begin_put(&mut self, name: &str) -> Result<(), Failed>
        ensures answer { is_ok result ≡ begins name.now self.old }
        ensures exact { self.new ≡ begun name.now self.old }

        // As of every store.
        ensures empty { OnOk result (ChangesFile name.now (Some []) (file_of self.old.kept.files) (file_of self.new.kept.files)) }
        ensures opened { OnOk result (open_name self.new ≡ Some name.now) }
        ensures kept { OnErr result (LeavesOrEmpties name.now (file_of self.old.kept.files) (file_of self.new.kept.files)) }
        ensures ended { OnErr result (open_name self.new ≡ None) }
        ensures cause { OnErr result (Rose self.old.faults self.new.faults) }
        ensures count { self.old.faults ≤ self.new.faults }
        ensures counted { CountsFaultIf (is_err result) self.old.faults self.new.faults }
    {
        self.is_open = !self.plan.next_fails() && self.kept.has_place(name);
        if !self.is_open {
            return Err(self.failed());
        }
        self.kept.start(name);
        Ok(())
    }

    fn piece(&mut self, bytes: &[u8]) -> Result<(), Failed>
        requires { IsSome (open_name self.old) }
        ensures answer { is_ok result ≡ pieces bytes.now self.old }
        ensures exact { self.new ≡ pieced bytes.now self.old }

        // As of every store.
        ensures whole { OnOk result (AppendsToOpen (open_name self.old) bytes.now (file_of self.old.kept.files) (file_of self.new.kept.files)) }
        ensures same_put { OnOk result (open_name self.new ≡ open_name self.old) }
        ensures front { OnErr result (CutsOpen (open_name self.old) bytes.now (file_of self.old.kept.files) (file_of self.new.kept.files)) }
        ensures ended { OnErr result (open_name self.new ≡ None) }
        ensures cause { OnErr result (Rose self.old.faults self.new.faults) }
        ensures count { self.old.faults ≤ self.new.faults }
        ensures counted { CountsFaultIf (is_err result) self.old.faults self.new.faults }
    {
        self.is_open = !self.plan.next_fails() && bytes.len() <= self.kept.spare_room();
        if !self.is_open {
            return Err(self.failed());
        }
        self.kept.append(bytes);
        Ok(())
    }

    fn end_put(&mut self) -> Result<(), Failed>
        requires { IsSome (open_name self.old) }
        ensures answer { is_ok result ≡ goes_well self.old }
        ensures exact { self.new ≡ ended self.old }

        // As of every store.
        ensures whole { OnOk result (SameFiles (file_of self.old.kept.files) (file_of self.new.kept.files)) }
        ensures front { OnErr result (CutsOpen (open_name self.old) [] (file_of self.old.kept.files) (file_of self.new.kept.files)) }
        ensures ended { open_name self.new ≡ None }
        ensures cause { OnErr result (Rose self.old.faults self.new.faults) }
        ensures count { self.old.faults ≤ self.new.faults }
        ensures counted { CountsFaultIf (is_err result) self.old.faults self.new.faults }
    {
        self.is_open = false;
        if self.plan.next_fails() {
            return Err(self.failed());
        }
        Ok(())
    }
}
