//! Names (GraphQL, October 2021, section 2.1.9).

/// Whether the text is a name.
pub fn is_name(text: &str) -> bool {
    match text.chars().next() {
        Some(first) => starts_name(first) && text.chars().all(continues_name),
        None => false,
    }
}

fn starts_name(character: char) -> bool {
    matches!(character, '_' | 'A'..='Z' | 'a'..='z')
}

fn continues_name(character: char) -> bool {
    starts_name(character) || matches!(character, '0'..='9')
}
