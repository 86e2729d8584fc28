ghost use Rattle.std.specs.Prelude.{◌≡◌, IfNone, IfOk, IfSome, IsOkUnless, map, position, string_bytes};
ghost use Rattle.omega_text.specs.declared.refusal.Refusal.TheVariants.{Memory};
ghost use Rattle.omega.specs.Running.{AreWords, HasNoText, is_nul};

use omega_text::Refusal;
use std::alloc::Global;

/// Returns the words of a command line, the program's name first, or none if one of them is not UTF-8.
pub(crate) fn words_in(alloc: Global, text: &[u8]) -> Result<Option<Vec<String>>, Refusal>
    ensures words { IfOk result
        (λ found. IfSome found (λ words. AreWords text.now (map string_bytes words.items))) }
    ensures none { IfOk result (λ found. IfNone found (HasNoText text.now)) }
    ensures memory { IsOkUnless result Memory }
{
    let mut words = Vec::new(alloc);
    words.push(String::from_str(alloc, "omega")?)?;
    let mut rest = text;
    while let Some(end) = first_nul(rest) {
        let Ok(word) = std::str::from_utf8(&rest[..end]) else {
            return Ok(None);
        };
        words.push(String::from_str(alloc, word)?)?;
        rest = &rest[end + 1..];
    }
    Ok(Some(words))
}

/// Returns the index of the first NUL.
pub(crate) fn first_nul(text: &[u8]) -> Option<usize>
    ensures { result ≡ position is_nul text.now }
{
    text.iter().position(|byte| *byte == 0)
}
