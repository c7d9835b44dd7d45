//! Names in lists.
ghost use Rattle.std.specs.Prelude.{◌≡◌, map, string_bytes};
ghost use Rattle.language_types.specs.Names.{is_among};

/// Whether the name is one of the list.
pub fn is_text_among(texts: &[String], name: &str) -> bool
    ensures { result ≡ is_among (map string_bytes texts.now) name.now }
{
    for text in texts {
        if text.as_str() == name {
            return true;
        }
    }
    false
}
