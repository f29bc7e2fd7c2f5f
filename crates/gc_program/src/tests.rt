// What the program makes of its words.
use crate::words_of;
use std::env::{Env, FillError};
use std::process::Abort;
use std::test::Fail;

/// A program named `gemcore` whose words are these bytes.
#[derive(Drop)]
struct Given(&'static [&'static [u8]]);

impl Env for Given {
    fn arg(&self, i: usize, buf: &mut [u8]) -> Result<usize, FillError> {
        let word = match i.checked_sub(1) {
            None => b"gemcore".as_slice(),
            Some(n) => self.0.get(n).copied().ok_or(FillError::NotPresent)?,
        };
        let start = buf.get_mut(..word.len()).ok_or(FillError::TooLong)?;
        start.copy_from_slice(word);
        Ok(word.len())
    }

    fn var(&self, _name: &str, _buf: &mut [u8]) -> Result<usize, FillError> {
        Err(FillError::NotPresent)
    }

    fn var_at(&self, _i: usize, _buf: &mut [u8]) -> Result<usize, FillError> {
        Err(FillError::NotPresent)
    }
}

/// What is given, and the words it comes to.
struct Case {
    given: &'static [&'static [u8]],
    words: &'static [&'static str],
}

static CASES: [Case; 4] = [
    Case {
        given: &[],
        words: &[],
    },
    Case {
        given: &[b"flat", b"image", b"10"],
        words: &["flat", "image", "10"],
    },
    Case {
        given: &[b"flat", b"\xff", b"10"],
        words: &[],
    },
    Case {
        given: &[b"\xc3"],
        words: &[],
    },
];

#[test]
fn a_word_that_is_not_utf_8_leaves_none(rt: HostRuntime) -> Result<(), Fail> {
    for case in &CASES {
        let words = words_of(&(Given(case.given), rt.alloc()))?;
        assert_eq!(rt; words.len(), case.words.len());
        for (word, expected) in words.iter().zip(case.words) {
            assert_eq!(rt; word.as_str(), *expected);
        }
    }
    Ok(())
}
