//! Numbers that hold a packed m-mer: 16 bits where m is at most 8, and 32 bits above.
ghost use Rattle.std.specs.Prelude.{◌≡◌, ◌-◌, ◌^◌, ◌<◌, ◌≤◌, ◌↔◌, ℕ, IsTrue, min};
ghost use Rattle.kmc_base.specs.Packed.{unpack};
ghost use Rattle.kmc_split.specs.Signature.{is_allowed};
ghost use Rattle.kmc_split.specs.Candidates.{pair_marks};

/// The most symbols of an m-mer that 16 bits hold.
pub const MOST_SHORT: usize = 8;

/// How many codes the forbidden beginnings have. A shorter m-mer is always allowed.
const HEAD: usize = 3;

/// The forbidden beginnings, packed.
const AAA: u8 = 0;

const ACA: u8 = 4;

/// Whether a canonical form of m codes may be a signature, given a mark for each code but the first: alike for each width, where m is
/// that of the forbidden beginnings or more.
macro_rules! allowed {
    ($packed:expr, $m:expr, $marks:expr, $number:ty) => {{
        // a mark at each A but the first code: where both bits of its pair are zero
        let a = $marks - (($packed | ($packed >> 1)) & $marks);
        let apart = (a & (a >> 2)) == 0;
        let head = $packed >> (2 * ($m - HEAD));
        (head != <$number>::from(AAA)) & (head != <$number>::from(ACA)) & apart
    }};
}

/// Whether a canonical form of 3 to 8 codes may be a signature, given a mark for each code but the first: it has no branch.
pub(crate) fn is_allowed_long(packed: u16, m: usize, marks: u16) -> bool
    requires some { HEAD ≤ m }
    requires most { m ≤ MOST_SHORT }
    requires fits { packed < 4 ^ m }
    requires marks { marks ≡ pair_marks (m - 1) }
    ensures { result ≡ is_allowed (unpack m packed) }
{
    allowed!(packed, m, marks, u16)
}

/// An unsigned number in which the m codes of an m-mer lie, two bits each, the last one lowest.
pub trait Mmer: Copy {
    ghost number: { Self → ℕ };

    ghost most: { ℕ };

    /// A packed m-mer that the number has room for.
    fn of_packed(packed: u32) -> Self
        requires { packed < 4 ^ most }
        ensures { number result ≡ packed };

    fn to_u32(self) -> u32
        ensures { result ≡ number self };

    fn lesser(self, other: Self) -> Self
        ensures { number result ≡ min (number self) (number other) };

    fn is_same(self, other: Self) -> bool
        ensures { IsTrue result ↔ (number self ≡ number other) };

    /// Whether this canonical form of m codes may be a signature, given a mark for each code but the first.
    fn is_allowed_with(self, m: usize, marks: Self) -> bool
        requires some { 1 ≤ m }
        requires within { m ≤ most }
        requires fits { number self < 4 ^ m }
        requires marks { number marks ≡ pair_marks (m - 1) }
        ensures { result ≡ is_allowed (unpack m (number self)) };
}

impl Mmer for u16 {
    ghost use Rattle.kmc_split.specs.declared.mmer.TheConstants.{MOST_SHORT};

    ghost number = { λ n. n };

    ghost most = { MOST_SHORT };

    fn of_packed(packed: u32) -> u16 {
        packed as u16
    }

    fn to_u32(self) -> u32 {
        u32::from(self)
    }

    fn lesser(self, other: u16) -> u16 {
        self.min(other)
    }

    fn is_same(self, other: u16) -> bool {
        self == other
    }

    fn is_allowed_with(self, m: usize, marks: u16) -> bool {
        if m < HEAD {
            return true;
        }
        is_allowed_long(self, m, marks)
    }
}

impl Mmer for u32 {
    ghost number = { λ n. n };

    ghost most = { 16 };

    fn of_packed(packed: u32) -> u32 {
        packed
    }

    fn to_u32(self) -> u32 {
        self
    }

    fn lesser(self, other: u32) -> u32 {
        self.min(other)
    }

    fn is_same(self, other: u32) -> bool {
        self == other
    }

    fn is_allowed_with(self, m: usize, marks: u32) -> bool {
        if m < HEAD {
            return true;
        }
        allowed!(self, m, marks, u32)
    }
}
