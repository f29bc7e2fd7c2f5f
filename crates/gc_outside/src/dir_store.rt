// A store over the files of the system.
ghost use Rattle.std.specs.Prelude.{◌≡◌, ◌≢◌, ◌≤◌, not, [], None, Some, Ok, Err, IfOk, IfErr, IfSome, IsSome, IsErrOf, OnOk, OnErr, is_ok, is_err};
ghost use Rattle.std.specs.Io.KnownBytes.{Appends};
ghost use Rattle.std.specs.IoError.{error_kind};
ghost use Rattle.gc_outside.specs.DirStore.{open_file};
ghost use Rattle.gc_outside.specs.Faults.{Rose, CountsFaultIf, counted, faults_after};
ghost use Rattle.gc_outside.specs.Store.{Answers, AnswersFile, AppendsToOpen, ChangesFile, CutsOpen, IsWithin, LeavesOrEmpties, is_failed};
ghost use Rattle.gc_outside.specs.Told.{Told};

use crate::faults::Failed;
use crate::store::{GetError, Got, Store};
use gc_base::Octets;
use std::alloc::Global;
use std::fs;
use std::io::{self, ErrorKind, Read, Write};
use std::marker::Model;
use std::rt::Files;

/// How many bytes one read asks of the system.
const CHUNK: usize = 16384;

/// The files of the system, by their path. It tells nothing of what they hold.
///
/// This is the trusted edge: what a file holds is as the system's calls give and take it.
#[derive(Drop)]
pub struct DirStore<'a, R: Files> {
    rt: &'a R,
    file: Option<R::File>,
    faults: u64,
}

impl<'a, R: Files> Model for DirStore<'a, R> {
    ghost use Rattle.gc_outside.specs.DirStore.{DirStoreState};

    ghost Value = { DirStoreState R.File };

    ghost view = { λ s. record { file = s.file; faults = s.faults } };
}

impl<'a, R: Files> DirStore<'a, R> {
    /// The files that the runtime reaches, with no put open and no fault counted.
    pub fn new(rt: &'a R) -> DirStore<'a, R>
        ensures { result ≡ record { file = None; faults = 0 } }
    {
        DirStore {
            rt,
            file: None,
            faults: 0,
        }
    }
}

// The fault count after one more fault.
fn one_more(faults: &mut u64) -> Failed
    ensures exact { faults.new ≡ counted faults.old }
    ensures rose { Rose faults.old faults.new }
    ensures count { faults.old ≤ faults.new }
{
    *faults = faults.saturating_add(1);
    Failed
}

/// The rest of a file, where it has at most so many bytes.
fn read_rest<F: Read>(file: &mut F, alloc: Global, most: usize) -> Result<Got, GetError>
    ensures within { IfOk result (IsWithin most) }

    // Where the file is one whose bytes are known, the answer is theirs.
    ensures answer { IfOk result (λ got. IfSome (F.remaining file.old) (λ rest. AnswersFile most (Some rest) got)) }
{
    let mut bytes = Vec::new(alloc);
    let mut chunk = [0u8; CHUNK];
    loop {
        let Ok(count) = file.read(&mut chunk) else {
            return Err(GetError::Failed);
        };
        if count == 0 {
            return Ok(Got::Bytes(Octets::new(bytes)));
        }
        if count > most - bytes.len() {
            return Ok(Got::Longer);
        }
        if bytes.extend_from_slice(&chunk[..count]).is_err() {
            return Err(GetError::NoMemory);
        }
    }
}

/// What a file says that was opened, or wasn't: only a name that isn't found is absent, all else is a failure.
fn answer_of<F: Read + Drop>(
    file: io::Result<F>,
    alloc: Global,
    most: usize,
) -> Result<Got, GetError>
    ensures within { IfOk result (IsWithin most) }
    ensures answer { IfOk file (λ f. IfOk result (λ got. IfSome (F.remaining f) (λ rest. AnswersFile most (Some rest) got))) }
    ensures absent { IfErr file (λ e. error_kind e ≡ ErrorKind.NotFound → result ≡ Ok Got.Absent) }
    ensures failure { IfErr file (λ e. error_kind e ≢ ErrorKind.NotFound → result ≡ Err GetError.Failed) }
{
    match file {
        Ok(mut file) => read_rest(&mut file, alloc, most),
        Err(e) if e.kind() == ErrorKind::NotFound => Ok(Got::Absent),
        Err(_) => Err(GetError::Failed),
    }
}

impl<R: Files> Store for DirStore<'_, R> {
    ghost files = { λ _. None };

    ghost open_put = { λ s. open_file s.file };

    ghost faults = { λ s. s.faults };

    fn get(&mut self, alloc: Global, name: &str, most: usize) -> Result<Got, GetError>
        ensures exact { self.new ≡ record self.old { faults = faults_after (not (is_failed result)) self.old.faults } }

        // As of every store.
        ensures answer { IfOk result (Answers most name.now None) }
        ensures within { IfOk result (IsWithin most) }
        ensures cause { IsErrOf result GetError.Failed → Rose self.old.faults self.new.faults }
        ensures count { self.old.faults ≤ self.new.faults }
        ensures counted { CountsFaultIf (is_failed result) self.old.faults self.new.faults }
    {
        let got = answer_of(fs::open(self.rt, name), alloc, most);
        if let Err(GetError::Failed) = got {
            one_more(&mut self.faults);
        }
        got
    }

    fn begin_put(&mut self, name: &str) -> Result<(), Failed>
        // As of every store.
        ensures empty { OnOk result (Told (ChangesFile name.now (Some [])) None None) }
        ensures kept { OnErr result (Told (LeavesOrEmpties name.now) None None) }
        ensures opened { OnOk result (IsSome (open_file self.new.file)) }
        ensures ended { OnErr result (open_file self.new.file ≡ None) }
        ensures cause { OnErr result (Rose self.old.faults self.new.faults) }
        ensures count { self.old.faults ≤ self.new.faults }
        ensures counted { CountsFaultIf (is_err result) self.old.faults self.new.faults }
    {
        self.file = fs::create(self.rt, name).ok();
        if self.file.is_none() {
            return Err(one_more(&mut self.faults));
        }
        Ok(())
    }

    fn piece(&mut self, bytes: &[u8]) -> Result<(), Failed>
        requires { IsSome (open_file self.old.file) }

        // Where the file is one whose bytes are known, it gained these.
        ensures written { OnOk result (IfSome self.old.file (λ old. IfSome self.new.file (λ new.
            Appends (R.File.contents old) (R.File.contents new) bytes.now))) }

        // As of every store.
        ensures whole { OnOk result (Told (AppendsToOpen (open_file self.old.file) bytes.now) None None) }
        ensures front { OnErr result (Told (CutsOpen (open_file self.old.file) bytes.now) None None) }
        ensures same_put { OnOk result (open_file self.new.file ≡ open_file self.old.file) }
        ensures ended { OnErr result (open_file self.new.file ≡ None) }
        ensures cause { OnErr result (Rose self.old.faults self.new.faults) }
        ensures count { self.old.faults ≤ self.new.faults }
        ensures counted { CountsFaultIf (is_err result) self.old.faults self.new.faults }
    {
        let Some(mut file) = self.file.take() else {
            unreachable!()
        };
        if file.write_all(bytes).is_err() {
            return Err(one_more(&mut self.faults));
        }
        self.file = Some(file);
        Ok(())
    }

    fn end_put(&mut self) -> Result<(), Failed>
        requires { IsSome (open_file self.old.file) }
        ensures exact { self.new ≡ record { file = None; faults = faults_after (is_ok result) self.old.faults } }

        // As of every store.
        ensures front { OnErr result (Told (CutsOpen (open_file self.old.file) []) None None) }
        ensures cause { OnErr result (Rose self.old.faults self.new.faults) }
        ensures count { self.old.faults ≤ self.new.faults }
        ensures counted { CountsFaultIf (is_err result) self.old.faults self.new.faults }
    {
        let Some(mut file) = self.file.take() else {
            unreachable!()
        };
        if file.flush().is_err() {
            return Err(one_more(&mut self.faults));
        }
        Ok(())
    }
}

#[cfg(test)]
mod tests {
    use super::*;
    use crate::tests::{is_bytes, put};
    use std::os::unix::fs::{PermissionsExt, symlink};
    use std::path::PathBuf;
    use std::test::Fail;
    use std::{env, process};

    // A folder of the test's own; its name has a blank.
    fn folder(rt: &HostRuntime, test: &str) -> Result<PathBuf, Fail> {
        let number = process::id(rt.process());
        let name = format!(in rt.alloc(); "gc_outside {test} {number}")?;
        let folder = env::temp_dir(rt)?.join(rt.alloc(), name.as_str())?;
        fs::create_dir(rt, folder.as_path())?;
        Ok(folder)
    }

    // More bytes than one read asks for.
    fn many_bytes(rt: &HostRuntime) -> Result<Vec<u8>, Fail> {
        let mut bytes = Vec::new(rt.alloc());
        for i in 0..20_000u32 {
            bytes.push((i % 251) as u8)?;
        }
        Ok(bytes)
    }

    #[test]
    fn dir_store_puts_and_gets(rt: HostRuntime) -> Result<(), Fail> {
        let folder = folder(&rt, "puts")?;
        let path = folder.join(rt.alloc(), "a file")?;
        let name = path.as_str();
        let many = many_bytes(&rt)?;
        let mut store = DirStore::new(&rt);
        // bytes in two pieces, the second put longer than one read and the third shorter than it
        let puts: [(&[u8], &[u8]); 4] = [
            (b"123", b"45"),
            (many.as_slice(), many.as_slice()),
            (b"1", b"234"),
            (b"", b""),
        ];
        for (first, second) in puts {
            let mut whole = Vec::from_slice(rt.alloc(), first)?;
            whole.extend_from_slice(second)?;
            let size = whole.len();
            assert!(rt; put(&mut store, name, first, second).is_ok());
            assert!(rt;
                is_bytes(store.get(rt.alloc(), name, size), whole.as_slice()),
                "{size}"
            );
            assert!(rt;
                is_bytes(store.get(rt.alloc(), name, 50_000), whole.as_slice()),
                "{size}"
            );
            if size > 0 {
                assert!(rt;
                    matches!(store.get(rt.alloc(), name, size - 1), Ok(Got::Longer)),
                    "{size}"
                );
            }
        }
        fs::remove_file(&rt, name)?;
        assert!(rt; matches!(store.get(rt.alloc(), name, 5), Ok(Got::Absent)));
        assert_eq!(rt; store.faults, 0);
        fs::remove_dir(&rt, folder.as_path())?;
        Ok(())
    }

    #[test]
    fn dir_store_counts_faults(rt: HostRuntime) -> Result<(), Fail> {
        let folder = folder(&rt, "faults")?;
        let file = folder.join(rt.alloc(), "file")?;
        let below_file = file.join(rt.alloc(), "a")?;
        let nowhere = folder.join(rt.alloc(), "no folder")?.join(rt.alloc(), "a")?;
        let link = folder.join(rt.alloc(), "link")?;
        symlink(&rt, link.as_path(), link.as_path())?;
        let mut store = DirStore::new(&rt);
        assert!(rt; put(&mut store, file.as_str(), b"1", b"2").is_ok());
        // name, whether its get says that it is absent, and the faults after the get and after a put: all puts fail, and all
        // other gets. The super-user too can't open what is a link to itself.
        let cases = [
            (folder.as_str(), false, 1, 2),
            (below_file.as_str(), false, 3, 4),
            (link.as_str(), false, 5, 6),
            ("a\0b", false, 7, 8),
            ("", true, 8, 9),
            (nowhere.as_str(), true, 9, 10),
        ];
        for (name, absent, after_get, after_put) in cases {
            let got = store.get(rt.alloc(), name, 5);
            assert_eq!(rt; matches!(got, Ok(Got::Absent)), absent, "{name}");
            assert_eq!(rt; matches!(got, Err(GetError::Failed)), !absent, "{name}");
            assert_eq!(rt; store.faults, after_get, "get {name}");
            assert!(rt; store.begin_put(name).is_err(), "{name}");
            assert_eq!(rt; store.faults, after_put, "put {name}");
        }
        // What permission forbids is there all the same. To the super-user nothing is forbidden.
        fs::set_permissions(&rt, file.as_path(), PermissionsExt::from_mode(0))?;
        assert!(rt;
            !matches!(
                store.get(rt.alloc(), file.as_str(), 5),
                Ok(Got::Absent | Got::Longer)
            )
        );
        fs::remove_dir_all(&rt, folder.as_path())?;
        Ok(())
    }

    // A reader of three bytes that fails then.
    #[derive(Drop)]
    struct Broken {
        left: usize,
    }

    impl Read for Broken {
        fn read(&mut self, buf: &mut [u8]) -> io::Result<usize> {
            let count = self.left.min(buf.len());
            if count == 0 {
                return Err(io::Error::from(ErrorKind::Other));
            }
            self.left -= count;
            Ok(count)
        }
    }

    #[test]
    fn failing_read_is_no_answer(rt: HostRuntime) {
        for (most, longer) in [(2, true), (3, false), (100, false)] {
            let got = read_rest(&mut Broken { left: 3 }, rt.alloc(), most);
            assert_eq!(rt; matches!(got, Ok(Got::Longer)), longer, "{most}");
            assert_eq!(rt; matches!(got, Err(GetError::Failed)), !longer, "{most}");
        }
    }
}
