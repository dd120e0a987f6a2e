// Sets of special attributes (FORMAT 1.5): sixteen bits with bit 0 clear, bit i for attribute i.
#![tactic(auto)]

ghost use Rattle.std.specs.Prelude.{◌≡◌};
ghost use Rattle.attribute_set.specs.AttrSet.{special, empty_set, from_bits, bits_of, with_attribute, has_attribute};

// Whether `a` is a special attribute, 1 to 15 (FORMAT 2.1).
pub fn is_special(a: u8) -> bool
    ensures { result ≡ special a }
{
    bits::in_range(1, 15, a)
}

// An attribute set (FORMAT 1.5). The field is private, so that every set outside this crate was made by the functions
// below, and has bit 0 clear.
#[derive(Clone, Copy)]
pub struct AttrSet {
    bits: u16,
}

impl AttrSet {
    pub const EMPTY: AttrSet = AttrSet { bits: 0 };

    // The set without members.
    pub fn empty() -> AttrSet
        ensures { result ≡ empty_set }
    {
        AttrSet::EMPTY
    }

    // The set that has attribute i where bit i of `bits` stands, or no set if bit 0 does.
    pub fn build(bits: u16) -> Option<AttrSet>
        ensures { result ≡ from_bits bits }
    {
        if bits % 2 == 1 {
            return None;
        }
        Some(AttrSet { bits })
    }

    // The sixteen bits.
    pub fn to_bits(self) -> u16
        ensures { result ≡ bits_of self }
    {
        self.bits
    }

    // The set with attribute `a` as well; a number that is no special attribute adds nothing.
    pub fn add(self, a: u8) -> AttrSet
        ensures { result ≡ with_attribute self a }
    {
        if is_special(a) {
            AttrSet {
                bits: self.bits | (1u16 << a),
            }
        } else {
            self
        }
    }

    // Whether attribute `a` is a member.
    pub fn has(self, a: u8) -> bool
        ensures { result ≡ has_attribute self a }
    {
        if a < 16 {
            (self.bits >> a) % 2 == 1
        } else {
            false
        }
    }
}
