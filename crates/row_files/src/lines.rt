//! The lines of a text.
use crate::failure::Failure;

/// The remaining lines of a text. Only a line feed ends a line.
#[derive(Drop)]
pub struct Lines<'a> {
    text: &'a [u8],
    number: usize,
}

impl<'a> Lines<'a> {
    /// All lines of a text.
    pub fn new(text: &'a [u8]) -> Lines<'a> {
        Lines { text, number: 1 }
    }

    /// The number of the next line, counted from 1.
    pub fn number(&self) -> usize {
        self.number
    }

    /// The remaining text.
    pub fn left(&self) -> &'a [u8] {
        self.text
    }

    /// A bound for loops over lines, never reached.
    pub fn bound(&self) -> usize {
        self.text.len().saturating_add(1)
    }

    /// The next line without its end, or `None` at the end of the text.
    pub fn ahead(&self) -> Option<&'a [u8]> {
        if self.text.is_empty() {
            return None;
        }
        Some(before(self.text, b'\n'))
    }

    /// Skips the next line.
    pub fn advance(&mut self) {
        let next = before(self.text, b'\n').len().saturating_add(1);
        self.text = self.text.get(next..).unwrap_or(&[]);
        self.number = self.number.saturating_add(1);
    }

    /// Takes the lines before the first that begins like this, or all of them, with their ends.
    pub fn take_until(&mut self, begin: &[u8]) -> &'a [u8] {
        let all = self.text;
        for _ in 0..self.bound() {
            match self.ahead() {
                Some(line) if !line.starts_with(begin) => self.advance(),
                _ => break,
            }
        }
        all.get(..all.len().saturating_sub(self.text.len()))
            .unwrap_or(&[])
    }

    /// Takes a line that begins like this, and returns the rest of the line.
    ///
    /// # Errors
    ///
    /// The next line begins otherwise.
    pub fn take_part(&mut self, begin: &[u8]) -> Result<&'a [u8], Failure> {
        let line = self.ahead().unwrap_or(&[]);
        let rest = line.strip_prefix(begin);
        let rest = rest.ok_or(Failure::Format(self.number))?;
        self.advance();
        Ok(rest)
    }
}

/// The text before the first byte like this, or all of it.
pub fn before(text: &[u8], end: u8) -> &[u8] {
    let length = text.iter().take_while(|byte| **byte != end).count();
    text.get(..length).unwrap_or(text)
}
