//! Classes of bytes.
ghost use Rattle.std.specs.Prelude.{◌≡◌, ◌&&◌, ◌||◌, ◌==◌, not};
ghost use Rattle.graphql_strings.specs.Characters.{is_line_end};
ghost use Rattle.graphql_lexer.specs.Lexical.{is_blank, is_name_continue, is_name_start as name_start};

// Each byte of a name stands at its own place, a comma at those of a tab, a space and a comma, a plus sign where
// another ignored token may begin, and a point elsewhere.
static BYTES: [u8; 256] = *b"\
    .........,+..+..................\
    ,..+........,...0123456789......\
    .ABCDEFGHIJKLMNOPQRSTUVWXYZ...._\
    .abcdefghijklmnopqrstuvwxyz.....\
    ................................\
    ................................\
    ................................\
    ...............+................";

/// Whether the byte may stand between tokens and ends no line: a tab, a space or a comma (sections 2.1.2 and 2.1.5).
#[inline(always)]
pub(crate) fn is_space(byte: u8) -> bool
    ensures { result ≡ (is_blank byte && not (is_line_end byte)) }
{
    BYTES[byte as usize] == b','
}

/// Whether the byte ends a line, or a comment or a byte order mark may begin with it (sections 2.1.1, 2.1.3 and 2.1.4).
#[inline(always)]
pub(crate) fn is_other_ignored(byte: u8) -> bool
    ensures { result ≡ (is_line_end byte || ((byte == 0x23) || (byte == 0xEF))) }
{
    BYTES[byte as usize] < b','
}

/// Whether a name may begin with this byte: of those of a name all but the digits.
#[inline(always)]
pub(crate) fn is_name_start(byte: u8) -> bool
    ensures { result ≡ name_start byte }
{
    BYTES[byte as usize] > b'9'
}

/// Whether a name may go on with this byte (section 2.1.9).
#[inline(always)]
pub(crate) fn is_name_byte(byte: u8) -> bool
    ensures { result ≡ is_name_continue byte }
{
    BYTES[byte as usize] > b'.'
}
