//! Validates the files of queries, one by one or as one document.
ghost use Rattle.std.specs.Prelude.{◌≡◌, ◌∷◌, [], IfOk, OnOk, Some, string_bytes};
ghost use Rattle.std.specs.Option.{option_copied};
ghost use Rattle.lint_app.specs.Told.{Adds, AddsIf, AreToldAs, HasKnownTypes, IsErrorFree, TellsDocument, TellsEach};
ghost use Rattle.lint_app.specs.Told.{TellsFaultsAt, TellsFaultsIn, TellsFiles, TellsRead, TellsTogether};
ghost use Rattle.lint_app.specs.Told.{limit_notes, limit_text};

use crate::rules::LintRules;
use graphql_reader::{ReadError, SourceScalar, read_document_within};
use lint_files::failure::Failure;
use lint_files::files::{add_fault, joined_of};
use lint_sources::faults::Fault;
use lint_sources::issues::Issue;
use lint_sources::sources::{Joined, Place, Source};
use std::alloc::Global;
use validation::dialects::clean_by_each_dialect;
use validation::{Definition, OutOfMemory, RootNode, RuleError, Variables, validate_input_values};
use walk::fill_limit;

/// The schema and the values by which files of queries are judged, and the files.
#[derive(Clone, Copy)]
pub struct Judge<'j> {
    /// The schema.
    pub root: &'j RootNode<SourceScalar>,
    /// Values of variables, which are checked if a document has no error.
    pub values: Option<&'j Variables<SourceScalar>>,
    /// The files, in order.
    pub sources: &'j [Source],
    /// How deep a document may nest, if there is a limit.
    pub max_depth: Option<usize>,
}

/// What was found in the files.
#[derive(Drop)]
pub struct Report {
    /// The errors of the documents.
    pub issues: Vec<Issue>,
    /// How many files could be judged.
    pub judged: usize,
}

impl Judge<'_> {
    /// Judges each file by itself. Syntax errors go to `faults`, and the other files are judged.
    ///
    /// # Errors
    ///
    /// Out of memory.
    pub fn each(&self, alloc: Global, faults: &mut Vec<Fault>) -> Result<Report, Failure>
        ensures { IfOk result
            (TellsEach ⟦<SourceScalar as LintRules>⟧.rules self.now.root.now (option_copied self.now.values)
            self.now.sources.now) }
    {
        let mut issues = Vec::new(alloc);
        let mut judged: usize = 0;
        let sources = self.sources;
        for (file, source) in sources.iter().enumerate() {
            let is_document = self.judge_file(alloc, file, source, &mut issues, faults)?;
            judged += usize::from(is_document);
        }
        Ok(Report { issues, judged })
    }

    // Judges the document of a file. Returns false if it has a syntax error, which goes to `faults`.
    fn judge_file(
        &self,
        alloc: Global,
        file: usize,
        source: &Source,
        issues: &mut Vec<Issue>,
        faults: &mut Vec<Fault>,
    ) -> Result<bool, Failure>
        ensures { IfOk result
            (λ is_document. AddsIf is_document
            (TellsFiles ⟦<SourceScalar as LintRules>⟧.rules self.now.root.now (option_copied self.now.values) file
            (source.now ∷ [])) issues.old.items issues.new.items) }
    {
        let mut joined = Joined::new(alloc);
        joined.add(file, source.text.as_str())?;
        let is_document = self.judge_joined(alloc, &joined, file, issues, faults)?;
        Ok(is_document)
    }

    /// Judges all files as one document, unless one has a syntax error. Syntax errors go to `faults`.
    ///
    /// # Errors
    ///
    /// Out of memory.
    pub fn together(&self, alloc: Global, faults: &mut Vec<Fault>) -> Result<Report, Failure>
        ensures { IfOk result
            (TellsTogether ⟦<SourceScalar as LintRules>⟧.rules self.now.root.now (option_copied self.now.values)
            self.now.sources.now) }
    {
        if !self.are_documents(alloc, faults)? {
            return Ok(Report::empty(alloc));
        }
        let joined = joined_of(alloc, self.sources)?;
        let mut issues = Vec::new(alloc);
        if !self.judge_joined(alloc, &joined, 0, &mut issues, faults)? {
            return Ok(Report::empty(alloc));
        }
        Ok(Report {
            issues,
            judged: self.sources.len(),
        })
    }

    // Whether there is a file, and each of several is a document by itself, so that no token reaches from one into the
    // next.
    fn are_documents(&self, alloc: Global, faults: &mut Vec<Fault>) -> Result<bool, Failure> {
        let mut are_all = !self.sources.is_empty();
        if self.sources.len() > 1 {
            for (file, source) in self.sources.iter().enumerate() {
                if !self.is_document(alloc, file, source, faults)? {
                    are_all = false;
                }
            }
        }
        Ok(are_all)
    }

    fn is_document(
        &self,
        alloc: Global,
        file: usize,
        source: &Source,
        faults: &mut Vec<Fault>,
    ) -> Result<bool, Failure> {
        match read_document_within(alloc, source.text.as_str(), self.max_depth) {
            Ok(_) => Ok(true),
            Err(ReadError::Syntax(error)) => {
                let position = error.position;
                add_fault(
                    alloc,
                    self.sources,
                    Place { file, position },
                    &error,
                    faults,
                )?;
                Ok(false)
            }
            Err(ReadError::OutOfMemory) => Err(Failure::OutOfMemory),
        }
    }

    // Judges the document of a joined text. Returns false if it has a syntax error, which goes to `faults`.
    fn judge_joined(
        &self,
        alloc: Global,
        joined: &Joined,
        file: usize,
        issues: &mut Vec<Issue>,
        faults: &mut Vec<Fault>,
    ) -> Result<bool, Failure>
        ensures { IfOk result
            (λ is_document. AddsIf is_document
            (TellsRead ⟦<SourceScalar as LintRules>⟧.rules self.now.root.now (option_copied self.now.values) joined.now
            file) issues.old.items issues.new.items) }
    {
        match read_document_within(alloc, joined.text(), self.max_depth) {
            Ok(document) => {
                self.add_issues(alloc, joined, file, document.as_slice(), issues)?;
                Ok(true)
            }
            Err(ReadError::Syntax(error)) => {
                let place = joined.place_of(error.position);
                add_fault(alloc, self.sources, place, &error, faults)?;
                Ok(false)
            }
            Err(ReadError::OutOfMemory) => Err(Failure::OutOfMemory),
        }
    }

    // Adds the errors of a document, and that there may be more; or if it has none the faults of values.
    fn add_issues(
        &self,
        alloc: Global,
        joined: &Joined,
        file: usize,
        document: &[Definition<'_, SourceScalar>],
        issues: &mut Vec<Issue>,
    ) -> Result<(), OutOfMemory>
        ensures { OnOk result
            (Adds (TellsDocument ⟦<SourceScalar as LintRules>⟧.rules self.now.root.now (option_copied self.now.values)
            joined.now file document.now) issues.old.items issues.new.items) }
    {
        let found = self.root.validate(alloc, document)?;
        let errors = found.as_slice();
        add_errors(alloc, joined, file, errors, issues)?;
        if !errors.is_empty() {
            let limit = self.root.max_errors;
            return add_limit_note(alloc, joined, file, limit, errors, issues);
        }
        self.add_faults(alloc, joined, file, document, issues)?;
        Ok(())
    }

    // Adds the faults of values for a document without errors, if there are values.
    fn add_faults(
        &self,
        alloc: Global,
        joined: &Joined,
        file: usize,
        document: &[Definition<'_, SourceScalar>],
        issues: &mut Vec<Issue>,
    ) -> Result<(), OutOfMemory>
        requires { IsErrorFree ⟦<SourceScalar as LintRules>⟧.rules self.now.root.now document.now }
        ensures { OnOk result
            (Adds (TellsFaultsIn self.now.root.now (option_copied self.now.values) joined.now file document.now)
            issues.old.items issues.new.items) }
    {
        match self.values {
            Some(values) => {
                self.add_faults_of_values(alloc, joined, file, document, values, issues)
            }
            None => Ok(()),
        }
    }

    fn add_faults_of_values(
        &self,
        alloc: Global,
        joined: &Joined,
        file: usize,
        document: &[Definition<'_, SourceScalar>],
        values: &Variables<SourceScalar>,
        issues: &mut Vec<Issue>,
    ) -> Result<(), OutOfMemory>
        requires { IsErrorFree ⟦<SourceScalar as LintRules>⟧.rules self.now.root.now document.now }
        ensures { OnOk result (Adds (TellsFaultsIn self.now.root.now (Some values.now) joined.now file document.now)
            issues.old.items issues.new.items) }
    {
        // The variables of a document without errors have input types, which are known.
        clean_by_each_dialect::<SourceScalar>();
        for definition in document {
            self.add_faults_at(alloc, joined, file, definition, values, issues)?;
        }
        Ok(())
    }

    // Adds the faults of values for the variables of a definition.
    fn add_faults_at(
        &self,
        alloc: Global,
        joined: &Joined,
        file: usize,
        definition: &Definition<'_, SourceScalar>,
        values: &Variables<SourceScalar>,
        issues: &mut Vec<Issue>,
    ) -> Result<(), OutOfMemory>
        requires { HasKnownTypes self.now.root.now definition.now }
        ensures { OnOk result (Adds (TellsFaultsAt self.now.root.now values.now joined.now file definition.now)
            issues.old.items issues.new.items) }
    {
        match definition {
            Definition::Operation(operation) => {
                let found = validate_input_values(alloc, values, operation, &self.root.schema)?;
                add_errors(alloc, joined, file, found.as_slice(), issues)?;
                Ok(())
            }
            Definition::Fragment(_) => Ok(()),
        }
    }
}

impl Report {
    /// The report on no file.
    pub fn empty(alloc: Global) -> Report
        ensures issues { result.issues.items ≡ [] }
        ensures judged { result.judged ≡ 0 }
    {
        Report {
            issues: Vec::new(alloc),
            judged: 0,
        }
    }
}

// Adds errors, their positions mapped back to the files.
fn add_errors(
    alloc: Global,
    joined: &Joined,
    file: usize,
    errors: &[RuleError],
    issues: &mut Vec<Issue>,
) -> Result<(), OutOfMemory>
    ensures { OnOk result (Adds (AreToldAs joined.now file errors.now) issues.old.items issues.new.items) }
{
    for error in errors {
        let issue = Issue::of_joined(alloc, joined, file, error.message(), error.locations())?;
        issues.push(issue)?;
    }
    Ok(())
}

// Adds that there may be more errors, where these fill the limit on them.
fn add_limit_note(
    alloc: Global,
    joined: &Joined,
    file: usize,
    limit: usize,
    errors: &[RuleError],
    issues: &mut Vec<Issue>,
) -> Result<(), OutOfMemory>
    ensures { OnOk result (Adds (AreToldAs joined.now file (limit_notes limit errors.now)) issues.old.items
        issues.new.items) }
{
    if !fill_limit(errors, limit) {
        return Ok(());
    }
    let message = limit_message(alloc, limit)?;
    let issue = Issue::of_joined(alloc, joined, file, message.as_str(), &[])?;
    issues.push(issue)?;
    Ok(())
}

fn limit_message(alloc: Global, limit: usize) -> Result<String, OutOfMemory>
    ensures { IfOk result (λ text. string_bytes text ≡ limit_text limit) }
{
    let text = format!(in alloc; "There may be more errors: --max-errors is {limit}")?;
    Ok(text)
}
