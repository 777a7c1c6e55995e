ghost use Rattle.std.specs.Prelude.{◌≡◌, map, string_bytes};
ghost use Rattle.std.specs.Option.{option_copied};
ghost use Rattle.strict_top.specs.Words.{directory_of, is_reserved};

/// The directory that the words name, where they are taken.
pub(crate) fn directory(words: &[String]) -> Option<&str>
    ensures { option_copied result ≡ directory_of (map string_bytes words.now) }
{
    match words {
        [word] if !is_reserved(word.as_str()) => Some(word.as_str()),
        _ => None,
    }
}

/// Whether the word begins an option or names a generated folder.
fn is_reserved(word: &str) -> bool
    ensures { result ≡ is_reserved word.now }
{
    let word = word.as_bytes();
    word.starts_with(b"-") || word.starts_with(b"gen:")
}
