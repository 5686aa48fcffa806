// The reserved prefix of identifiers.
//
// Proved: `reserved` is the definition's test.
// Assumed: nothing.
ghost use Rattle.std.specs.Prelude.{◌≡◌};
ghost use Rattle.definition.specs.Token.{starts_with, reserved_prefix};

const RESERVED_PREFIX: [u8; 5] = *b"uu___";

// Whether an identifier begins with the reserved prefix.
pub fn reserved(id: &[u8]) -> bool
    ensures { result ≡ starts_with id.now reserved_prefix }
{
    id.starts_with(&RESERVED_PREFIX)
}
