//! The four bases.
ghost use Rattle.std.specs.Prelude.{◌≡◌, Some, None, IsTrue};
ghost use Rattle.kmc_base.specs.Words.{code_of};
ghost use Rattle.kmc_base.specs.Stretches.{IsBase};

/// Whether a byte is a base. It has no branch, so that many bytes are tested at once.
pub(crate) fn is_base(b: u8) -> bool
    ensures yes { IsTrue result → IsBase b }
    ensures no { ¬ (IsTrue result) → code_of b ≡ None }
{
    let a = (b == b'A') | (b == b'a');
    let c = (b == b'C') | (b == b'c');
    let g = (b == b'G') | (b == b'g');
    let t = (b == b'T') | (b == b't');
    a | c | g | t
}

/// The code of a byte that is a base, from its five lowest bits: 1, 3, 7 and 20 for A, C, G and T in either case. It has
/// neither a branch nor a load, so that many codes are made at once.
pub(crate) fn base_code(b: u8) -> u8
    requires { IsBase b }
    ensures { Some result ≡ code_of b }
{
    ((b % 32 + 1) / 4).min(3)
}
