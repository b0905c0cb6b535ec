// Names and texts in a list, for the shelves in memory.
ghost use Rattle.std.specs.Prelude.{◌≡◌};
ghost use Rattle.std.specs.Option.{option_copied};
ghost use Rattle.sheet_io.specs.Texts.{text_under};

/// The text at the first place of a name, by one look at each name before it.
pub(crate) fn find_text<'a>(texts: &'a [(String, Vec<u8>)], name: &str) -> Option<&'a [u8]>
    ensures { option_copied result ≡ text_under texts.now name.now }
{
    for (held, text) in texts {
        if held.as_str() == name {
            return Some(text.as_slice());
        }
    }
    None
}
