// A store in memory that never fails, for theorems about runs whose outputs all go well.
ghost use Rattle.std.specs.Prelude.{◌≡◌, ◌≢◌, ℕ, [], Some, None, Err, IfOk, IsOk, IsSome, option_copied};
ghost use Rattle.gc_outside.specs.Told.{Told};
ghost use Rattle.gc_outside.specs.Store.{Answers, IsWithin, Opens, ChangesFile, AppendsToOpen, SameFiles};
ghost use Rattle.gc_outside.specs.KeptFiles.{file_of, can_add};
ghost use Rattle.gc_outside.specs.declared.sure_store.OpenPut.TheVariants.{Closed};
ghost use Rattle.gc_outside.specs.SureStore.{told_files, put_name, sure_begun, pieced_into, sure_added, IsCounted};

use crate::answer::answer;
use crate::faults::Failed;
use crate::kept_files::KeptFiles;
use crate::store::{GetError, Got, Store};
use gc_base::NoMemory;
use std::alloc::Global;
use std::marker::Model;

/// Which put is open: none, that of the newest file, or that of a file which had no place.
#[derive(Clone, Copy)]
pub enum OpenPut {
    Closed,
    Open,
    Lost,
}

/// Keeps files as far as they fit, and counts the rest. It never fails, and tells its files while nothing was over.
#[derive(Drop)]
pub struct SureStore {
    kept: KeptFiles,
    put: OpenPut,
    over: u64,
}

impl Model for SureStore {
    ghost use Rattle.gc_outside.specs.SureStore.{SureStoreState, IsCounted};

    ghost Value = { SureStoreState };

    ghost view = { λ s. record { kept = s.kept; put = s.put; over = s.over } };

    ghost invariant = { λ s. IsCounted s.put s.over };
}

impl SureStore {
    /// An empty store. It takes memory for files of `room` bytes in all at once.
    pub fn new(alloc: Global, room: usize) -> Result<SureStore, NoMemory>
        ensures { IfOk result (λ s. s ≡ record { kept = record { files = []; room = room }; put = Closed; over = 0 }) }
    {
        Ok(SureStore {
            kept: KeptFiles::new(alloc, room)?,
            put: OpenPut::Closed,
            over: 0,
        })
    }

    /// The bytes of a file, if it is there.
    pub fn file(&self, name: &str) -> Option<&[u8]>
        ensures { option_copied result ≡ file_of self.now.kept.files name.now }
    {
        self.kept.file(name)
    }

    /// Puts a file whole, and ends an open put first, as it is. False where the name, its place or the bytes don't fit.
    pub fn add(&mut self, name: &str, bytes: &[u8]) -> bool
        ensures answer { result ≡ can_add name.now bytes.now self.old.kept }
        ensures exact { self.new ≡ sure_added name.now bytes.now self.old }
    {
        let fits = self.kept.add(name, bytes);
        if fits {
            self.put = OpenPut::Closed;
        }
        fits
    }

    /// How many bytes, and files, there was no room for. It stands still at 2^64 - 1.
    pub fn over(&self) -> u64
        ensures { result ≡ self.now.over }
    {
        self.over
    }

    // Starts a file, or counts it where it has no place.
    fn begin(&mut self, name: &str)
        ensures { self.new ≡ sure_begun name.now self.old }
    {
        if self.kept.has_place(name) {
            self.kept.start(name);
            self.put = OpenPut::Open;
        } else {
            self.over = self.over.saturating_add(1);
            self.put = OpenPut::Lost;
        }
    }

    // Appends what fits to the open file, and counts the rest.
    fn append(&mut self, bytes: &[u8])
        requires { IsSome (put_name self.old.put self.old.kept.files) }
        ensures exact { self.new ≡ pieced_into self.old.put bytes.now self.old }
        ensures counted { IsCounted self.old.put self.old.over }
    {
        let over = match self.put {
            OpenPut::Closed => 0,
            OpenPut::Open => self.kept.append_fitting(bytes),
            OpenPut::Lost => bytes.len(),
        };
        self.over = self.over.saturating_add(over as u64);
    }
}

impl Store for SureStore {
    ghost files = { told_files };

    ghost open_put = { λ s. put_name s.put s.kept.files };

    ghost faults = { λ _. 0 };

    fn get(&mut self, alloc: Global, name: &str, most: usize) -> Result<Got, GetError>
        ensures same { self.new ≡ self.old }
        ensures cause { result ≢ Err GetError.Failed }
        ensures answer { IfOk result (Answers most name.now (Some (file_of self.old.kept.files))) }
        ensures within { IfOk result (IsWithin most) }
    {
        answer(self.kept.file(name), alloc, most)
    }

    fn begin_put(&mut self, name: &str) -> Result<(), Failed>
        ensures answer { IsOk result }
        ensures exact { self.new ≡ sure_begun name.now self.old }

        // As of every store.
        ensures empty { Told (ChangesFile name.now (Some [])) (told_files self.old) (told_files self.new) }
        ensures opened { Opens name.now (told_files self.new) (put_name self.new.put self.new.kept.files) }
    {
        self.begin(name);
        Ok(())
    }

    fn piece(&mut self, bytes: &[u8]) -> Result<(), Failed>
        requires { IsSome (put_name self.old.put self.old.kept.files) }
        ensures answer { IsOk result }
        ensures exact { self.new ≡ pieced_into self.old.put bytes.now self.old }

        // As of every store.
        ensures whole { Told (AppendsToOpen (put_name self.old.put self.old.kept.files) bytes.now) (told_files self.old) (told_files self.new) }
        ensures same_put { put_name self.new.put self.new.kept.files ≡ put_name self.old.put self.old.kept.files }
    {
        self.append(bytes);
        Ok(())
    }

    fn end_put(&mut self) -> Result<(), Failed>
        requires { IsSome (put_name self.old.put self.old.kept.files) }
        ensures answer { IsOk result }
        ensures exact { self.new ≡ record self.old { put = Closed } }
    {
        self.put = OpenPut::Closed;
        Ok(())
    }
}
