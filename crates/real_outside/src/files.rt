//! Real files as a store.
ghost use Rattle.std.specs.Prelude.{◌≡◌, None, map, string_bytes};
ghost use Rattle.spark_base.specs.Lists.{Has};
ghost use Rattle.spark_base.specs.Words.{operands};

use spark_base::{Failed, FileStore, OpenFault};
use std::fs::Files;
use std::io::Read;
use std::{fs, io};

/// Opens a file that the words name. The words stand for this condition alone: no other file is
/// ever opened.
fn open_operand<R: Files>(rt: &R, words: &[String], name: &str) -> io::Result<R::File>
    requires { Has (operands (map string_bytes words.now)) name.now }
{
    fs::open(rt, name)
}

/// Real files, made for the words of a command. A missing file counts as an error.
///
/// It doesn't tell which files there are. Of the open file it tells the bytes that the reader
/// tells; real files tell none.
#[derive(Drop)]
pub struct RealFiles<'a, R: Files> {
    rt: &'a R,
    words: &'a [String],
    current: Option<R::File>,
    pub(crate) faults: u64,
}

impl<'a, R: Files> RealFiles<'a, R> {
    /// A store for these words. No file is open, and no call has failed yet.
    pub fn new(rt: &'a R, words: &'a [String]) -> RealFiles<'a, R>
        ensures words { result.words.now ≡ words.now }
        ensures closed { result.current ≡ None }
        ensures faults { result.faults ≡ 0 }
    {
        RealFiles {
            rt,
            words,
            current: None,
            faults: 0,
        }
    }
}

impl<R: Files> FileStore for RealFiles<'_, R> {
    ghost use Rattle.std.specs.Option.{is_some, option_and_then};

    ghost words = { λ files. map string_bytes files.words.now };

    ghost stored = { λ _. None };

    ghost is_open = { λ files. is_some files.current };

    ghost left = { λ files. option_and_then R.File.remaining files.current };

    ghost faults = { λ files. files.faults };

    fn open_file(&mut self, name: &str) -> Result<(), OpenFault> {
        match open_operand(self.rt, self.words, name) {
            Ok(file) => {
                self.current = Some(file);
                Ok(())
            }
            Err(_) => {
                self.current = None;
                self.faults = self.faults.saturating_add(1);
                Err(OpenFault::Failed)
            }
        }
    }

    fn next(&mut self, buf: &mut [u8]) -> Result<usize, Failed> {
        if let Some(file) = &mut self.current {
            if let Ok(count) = file.read(buf) {
                return Ok(count);
            }
        }
        self.faults = self.faults.saturating_add(1);
        Err(Failed)
    }
}
