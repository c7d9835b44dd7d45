//! The command line, files and standard input of the machine.
ghost use Rattle.std.specs.Prelude.{◌≡◌, ◌≤◌, ◌⊎◌, false, true};
ghost use Rattle.lint_args.specs.Asks.{WantsText, word_texts};
ghost use Rattle.lint_app.specs.Ended.{Ends};
ghost use Rattle.lint_files.specs.Host.{unknown_host};
ghost use Rattle.lint_app.specs.Written.{WritesAsked, asks_for_text};

use crate::program;
use crate::rules::LintRules;
use graphql_reader::SourceScalar;
use lint_args::task::INPUT;
use lint_files::colours::Colours;
use lint_files::files::Inputs;
use lint_files::folders::{files_below, is_folder};
use std::alloc::{AllocError, Global};
use std::env::{self, Env, VarError};
use std::fs;
use std::io::{self, Read, Write};
use std::rt::Files;

/// The files of the machine. The path `-` is the standard input.
#[derive(Clone, Copy)]
pub struct Machine<'r, R: Files + Input + AllocGlobal + Clone + Drop> {
    pub rt: &'r R,
    pub colours: Colours,
}

impl<R: Files + Input + AllocGlobal + Clone + Drop> Inputs for Machine<'_, R> {
    ghost host = { λ m. unknown_host m.colours };

    fn read(&self, alloc: Global, path: &str) -> io::Result<Vec<u8>> {
        if path != INPUT {
            return fs::read(self.rt, path);
        }
        let mut bytes = Vec::new(alloc);
        self.rt.reader().read_to_end(&mut bytes)?;
        Ok(bytes)
    }

    fn list(&self, alloc: Global, path: &str) -> Result<Option<Vec<String>>, AllocError> {
        if path == INPUT || !is_folder(self.rt, path) {
            return Ok(None);
        }
        Ok(Some(files_below(alloc, self.rt, path)?))
    }

    fn colours(&self) -> Colours {
        self.colours
    }
}

/// Does what the words of a command line ask for, over the machine's files, and returns the exit status. What the files
/// have is the machine's to say.
pub fn run<R: Files + Input + AllocGlobal + Clone + Drop, W: Write, E: Write>(
    rt: &R,
    colours: Colours,
    words: &[String],
    output: &mut W,
    errors: &mut E,
) -> u8
    ensures status { result ≤ 2 }
    ensures told { asks_for_text words.now ≡ false → result ≤ 1
        → WritesAsked ⟦<SourceScalar as LintRules>⟧.rules words.now (unknown_host colours) (W.contents output.old)
        (W.contents output.new) result }
    ensures answered { result ≤ 1
        → WantsText (word_texts words.now)
        ⊎ WritesAsked ⟦<SourceScalar as LintRules>⟧.rules words.now (unknown_host colours)
        (W.contents output.old) (W.contents output.new) result }
    ensures quiet { result ≤ 1 → errors.new ≡ errors.old }
    ensures ended { result ≡ 2
        → Ends ⟦<SourceScalar as LintRules>⟧.rules words.now (unknown_host colours) (W.contents output.old)
        (W.contents output.new) }
{
    program::run(rt.alloc(), words, &Machine { rt, colours }, output, errors)
}

/// Which streams show colours, given which are terminals: these, unless `NO_COLOR` is set to a text that is not empty.
pub fn colours_of<R: Env + AllocGlobal>(rt: &R, output: bool, errors: bool) -> Colours
    ensures output { result.output ≡ true → output ≡ true }
    ensures errors { result.errors ≡ true → errors ≡ true }
{
    let are_wanted = match env::var(rt, "NO_COLOR") {
        Ok(text) => text.is_empty(),
        Err(VarError::NotPresent) => true,
        Err(_) => false,
    };
    Colours {
        output: output && are_wanted,
        errors: errors && are_wanted,
    }
}

/// The words of the command line of the process.
///
/// # Errors
///
/// Out of memory, or a word is not UTF-8.
pub fn words<R: Env + AllocGlobal>(rt: &R) -> io::Result<Vec<String>> {
    env::args(rt)?.collect(rt.alloc()).map_err(io::Error::from)
}
