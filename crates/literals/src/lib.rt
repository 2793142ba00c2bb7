// Literals as signed bytes, and sets of literals as two masks.
#![tactic(auto)]

ghost use Rattle.std.specs.Prelude.{◌≡◌, ◌≤◌, ◌<◌};
ghost use Rattle.sets.specs.Sets.{width};
ghost use Rattle.literals.specs.Literal.{variable, of_byte, byte_of};
ghost use Rattle.literals.specs.LiteralSets as literal_set;
ghost use Rattle.literals.specs.WithLiteral.{WithLiteral};

// The literal that a byte is: a signed byte in two's complement.
#[tactic(auto, unfolding(crate::specs::Literal::of_byte))]
pub fn of_byte(b: u8) -> i8
    ensures { result ≡ of_byte b }
{
    b.cast_signed()
}

// The variable of a literal. That of the byte 80, -128, is 128, which fits only an unsigned byte.
#[tactic(auto, unfolding(crate::specs::Literal::variable))]
pub fn variable(l: i8) -> u8
    ensures { result ≡ variable l }
{
    l.unsigned_abs()
}

// The byte that a literal is.
#[tactic(auto, unfolding(crate::specs::Literal::byte_of))]
pub fn to_byte(l: i8) -> u8
    ensures { result ≡ byte_of l }
{
    l.cast_unsigned()
}

// A set of literals: the variables that it says yes of, and those that it says no of. Bit v - 1 stands for variable v.
#[derive(Clone, Copy, Debug, Default, PartialEq, Eq)]
pub struct LiteralSet {
    pub yes: u64,
    pub no: u64,
}

impl LiteralSet {
    // The set of no literal.
    pub const EMPTY: LiteralSet = LiteralSet { yes: 0, no: 0 };

    // The variables that the set speaks of.
    pub fn variables(self) -> u64
        ensures { result ≡ literal_set.variables self }
    {
        sets::union(self.yes, self.no)
    }

    // The literals of one set or of the other.
    pub fn union(self, other: LiteralSet) -> LiteralSet
        ensures { result ≡ literal_set.union self other }
    {
        LiteralSet {
            yes: sets::union(self.yes, other.yes),
            no: sets::union(self.no, other.no),
        }
    }

    // The literals of both sets.
    pub fn intersection(self, other: LiteralSet) -> LiteralSet
        ensures { result ≡ literal_set.inter self other }
    {
        LiteralSet {
            yes: sets::intersection(self.yes, other.yes),
            no: sets::intersection(self.no, other.no),
        }
    }

    // The literals that are not in the other set.
    pub fn difference(self, other: LiteralSet) -> LiteralSet
        ensures { result ≡ literal_set.diff self other }
    {
        LiteralSet {
            yes: sets::difference(self.yes, other.yes),
            no: sets::difference(self.no, other.no),
        }
    }

    // Whether each literal is in the other set.
    pub fn is_subset(self, other: LiteralSet) -> bool
        ensures { result ≡ literal_set.subset self other }
    {
        sets::subset(self.yes, other.yes) && sets::subset(self.no, other.no)
    }

    // The set with one literal more.
    pub fn with(self, l: i8) -> LiteralSet
        requires l_nonzero { 0 < variable l }
        requires l_bound { variable l ≤ width }
        ensures { WithLiteral self l result }
    {
        let v = (variable(l) - 1) as u32;
        if 0 < l {
            LiteralSet {
                yes: sets::insert(self.yes, v),
                ..self
            }
        } else {
            LiteralSet {
                no: sets::insert(self.no, v),
                ..self
            }
        }
    }
}
