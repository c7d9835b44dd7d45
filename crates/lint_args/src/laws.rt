//! Laws of what command-line arguments ask for.
ghost use Rattle.lint_args.specs.Laws.{KnowsNames, KnowsSample};

/// Behind a schema file, arguments that name files ask for these files in order, each once, and for no option.
pub fn names_keep_order()
    ensures { KnowsNames }
{}

/// A sample command line asks for what a reader would expect.
pub fn sample_is_known()
    ensures { KnowsSample }
{}
