// The sentence's text in its file.
ghost use Rattle.std.specs.Prelude.{◌≡◌};
ghost use Rattle.lines.specs.Texts.{without_newline};

// The bytes of a file without one final newline.
pub fn without_newline(file: &[u8]) -> &[u8]
    ensures { result.now ≡ without_newline file.now }
{
    file.strip_suffix(b"\n").unwrap_or(file)
}
