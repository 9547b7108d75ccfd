ghost use Rattle.std.specs.Prelude.{◌≡◌, IfNone, IfSome};
ghost use Rattle.std.specs.Str.{IsUtf8};

/// These bytes as text, and `None` where they are no UTF-8.
pub fn as_text(bytes: &[u8]) -> Option<&str>
    ensures same { IfSome result (λ text. text.now ≡ bytes.now) }
    ensures none { IfNone result (¬ IsUtf8 bytes.now) }
{
    match str::from_utf8(bytes) {
        Ok(text) => Some(text),
        Err(_) => None,
    }
}
