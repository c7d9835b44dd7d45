//! Why files could not be judged.
ghost use Rattle.std.specs.Prelude.{◌≡◌, IfOk, OnOk, Some, option_map};
ghost use Rattle.std.specs.Option.{option_to_list};
ghost use Rattle.lint_sources.specs.Faults.{HasPlaceMore, IsFault, IsSource, of_file};
ghost use Rattle.lint_sources.specs.Sources.{path_in, text_in};

use crate::issues::Issue;
use crate::sources::{Place, Source, path_of, text_of};
use language_types::error::OutOfMemory;
use language_types::position::SourcePosition;
use std::alloc::{AllocError, Global};
use std::fmt;

/// Why a file could not be judged.
#[derive(Debug, Drop)]
pub struct Fault {
    /// The file, with the number 0, and then one source for each further place: the file of that place, and the text
    /// in which its position is.
    pub sources: Vec<Source>,
    /// An error of the file, whose places are in these sources.
    pub issue: Issue,
}

impl Fault {
    /// A fault at a position of a file, or of the file as a whole.
    ///
    /// # Errors
    ///
    /// Out of memory.
    pub fn new<M: fmt::Display>(
        alloc: Global,
        path: &str,
        text: &str,
        position: Option<SourcePosition>,
        message: &M,
    ) -> Result<Fault, OutOfMemory>
        ensures { IfOk result (IsFault path.now text.now position (M.output message.now)) }
    {
        let mut sources = Vec::new(alloc);
        sources.push(source_of(alloc, path, text)?)?;
        let message = format!(in alloc; "{message}")?;
        let places = places_of(alloc, position)?;
        Ok(Fault {
            sources,
            issue: Issue {
                file: 0,
                message,
                places,
            },
        })
    }

    /// A fault at a place of one of several files.
    ///
    /// # Errors
    ///
    /// Out of memory.
    pub fn at<M: fmt::Display>(
        alloc: Global,
        sources: &[Source],
        place: Place,
        message: &M,
    ) -> Result<Fault, OutOfMemory>
        ensures { IfOk result
            (IsFault (path_in sources.now place.file) (text_in sources.now place.file) (Some place.position)
            (M.output message.now)) }
    {
        let (path, text) = (path_of(sources, place.file), text_of(sources, place.file));
        Fault::new(alloc, path, text, Some(place.position), message)
    }

    /// Adds a further place: a position of a text, and the path of its file, which may be another one.
    ///
    /// # Errors
    ///
    /// Out of memory; the places are as they were then.
    pub fn add_place(
        &mut self,
        alloc: Global,
        path: &str,
        text: &str,
        position: SourcePosition,
    ) -> Result<(), OutOfMemory>
        ensures { OnOk result (HasPlaceMore path.now text.now position self.old self.new) }
    {
        let source = source_of(alloc, path, text)?;
        let file = self.sources.len();
        self.sources.push(source)?;
        self.issue.places.push(Place { file, position })?;
        Ok(())
    }
}

fn source_of(alloc: Global, path: &str, text: &str) -> Result<Source, AllocError>
    ensures { IfOk result (IsSource path.now text.now) }
{
    let path = String::from_str(alloc, path)?;
    let text = String::from_str(alloc, text)?;
    Ok(Source { path, text })
}

// The places of a fault, whose file has the number 0.
fn places_of(alloc: Global, position: Option<SourcePosition>) -> Result<Vec<Place>, AllocError>
    ensures { IfOk result (λ places. places.items ≡ option_to_list (option_map of_file position)) }
{
    let mut places = Vec::new(alloc);
    if let Some(position) = position {
        places.push(Place { file: 0, position })?;
    }
    Ok(places)
}
