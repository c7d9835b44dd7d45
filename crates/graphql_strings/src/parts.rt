//! Parts of a text.
ghost use Rattle.std.specs.Prelude.{◌≡◌, ◌≤◌, drop, slice_range};
ghost use Rattle.std.specs.Str.{IsCharBoundary};

/// The text after `count` bytes.
pub fn rest(text: &[u8], count: usize) -> &[u8]
    ensures { result.now ≡ drop count text.now }
{
    text.get(count..).unwrap_or(&[])
}

/// The text from one index to another.
pub(crate) fn part(text: &str, start: usize, stop: usize) -> &str
    requires order { start ≤ stop }
    requires starts { IsCharBoundary text.now start }
    requires stops { IsCharBoundary text.now stop }
    ensures { result.now ≡ slice_range text.now start stop }
{
    text.get(start..stop).unwrap_or("")
}
