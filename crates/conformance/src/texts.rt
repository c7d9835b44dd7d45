//! Texts that are made to hurt.

use std::alloc::{AllocError, Global};
use std::fmt::Write;

/// A text that is made, or else as it is written.
///
/// `towers FIELD` are two towers of fragments, of which each spreads the next below two fields; the last of the second
/// has this field. `crossing` is a tower of two fragments a level, of which each spreads both of the next level.
pub fn written(alloc: Global, text: &str) -> Result<String, AllocError> {
    if text == "crossing" {
        return crossing(alloc);
    }
    match text.strip_prefix("towers ") {
        Some(last) => towers(alloc, last),
        None => String::from_str(alloc, text),
    }
}

fn towers(alloc: Global, last: &str) -> Result<String, AllocError> {
    let mut text = String::from_str(alloc, "{ human { ...A1 ...B1 } }")?;
    push_tower(&mut text, "A", "name")?;
    push_tower(&mut text, "B", last)?;
    Ok(text)
}

fn push_tower(text: &mut String, name: &str, last: &str) -> Result<(), AllocError> {
    for level in 1..21u32 {
        let next = level + 1;
        write!(
            text,
            " fragment {name}{level} on Human {{ l: relatives {{ ...{name}{next} }} r: relatives {{ ...{name}{next} }} }}"
        )?;
    }
    write!(text, " fragment {name}21 on Human {{ {last} }}")
}

fn crossing(alloc: Global) -> Result<String, AllocError> {
    let mut text = String::from_str(
        alloc,
        "{ human { name ...A1 } } fragment A1 on Human { ...A2 ...C2 }",
    )?;
    for level in 2..20u32 {
        push_crossing(&mut text, "A", level, level + 1)?;
        push_crossing(&mut text, "C", level, level + 1)?;
    }
    text.push_str(" fragment A20 on Human { name } fragment C20 on Human { name }")?;
    Ok(text)
}

fn push_crossing(text: &mut String, name: &str, level: u32, next: u32) -> Result<(), AllocError> {
    write!(
        text,
        " fragment {name}{level} on Human {{ ...A{next} ...C{next} }}"
    )
}
