//! Colours on a terminal.
ghost use Rattle.std.specs.Prelude.{◌≡◌};
ghost use Rattle.lint_report.specs.Colours.{bold, error_word, mark, plain};

/// What begins bold text, or nothing without colours.
pub fn bold(is_coloured: bool) -> &'static str
    ensures { result.now ≡ bold is_coloured }
{
    if is_coloured { "\x1b[1m" } else { "" }
}

/// What ends it.
pub fn plain(is_coloured: bool) -> &'static str
    ensures { result.now ≡ plain is_coloured }
{
    if is_coloured { "\x1b[0m" } else { "" }
}

/// The word before an error's message, which may be red.
pub fn error_word(is_coloured: bool) -> &'static str
    ensures { result.now ≡ error_word is_coloured }
{
    if is_coloured {
        "\x1b[1;31merror:\x1b[0m "
    } else {
        "error: "
    }
}

/// The mark below a place, which may be red, and the end of its line.
pub fn mark(is_coloured: bool) -> &'static str
    ensures { result.now ≡ mark is_coloured }
{
    if is_coloured {
        "\x1b[1;31m^\x1b[0m\n"
    } else {
        "^\n"
    }
}
