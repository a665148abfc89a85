ghost use Rattle.std.specs.Prelude.{◌≡◌};
ghost use Rattle.fixed_words.specs.Types.{kind_of, lowest, highest, is_word_of};

/// The kind of an expression's value. The rules state by it which operands an operation may have, and what it
/// gives.
///
/// All integer types are of the one kind `Int`.
#[derive(Clone, Copy, Debug, PartialEq, Eq)]
pub enum Kind {
    Int,
    Bool,
    /// Fixed point with this many decimals, from 0 to 9.
    Fixed(u8),
}

/// The type of a variable: which words it may hold, and how they are written.
///
/// The integer types and Boolean are those of FMI 3.0 except `UInt64`; `Fixed` is fixed point.
#[derive(Clone, Copy, Debug, PartialEq, Eq)]
pub enum Ty {
    Int8,
    UInt8,
    Int16,
    UInt16,
    Int32,
    UInt32,
    Int64,
    /// The word 0 is false and 1 is true.
    Bool,
    /// Fixed point with this many decimals, from 0 to 9: the value is the word divided by that power of ten.
    /// Every word is a word of the type.
    Fixed(u8),
}

impl Ty {
    /// The kind of the type's values.
    pub fn kind(self) -> Kind
        ensures { result ≡ kind_of self }
    {
        match self {
            Ty::Bool => Kind::Bool,
            Ty::Fixed(decimals) => Kind::Fixed(decimals),
            _ => Kind::Int,
        }
    }
}

/// What an operation, a store or a call of a component gives where it has no word. Notes name it by its
/// number.
#[derive(Clone, Copy, Debug, PartialEq, Eq)]
pub enum Fault {
    /// Fault 1: a result does not fit 64 bits.
    Overflow,
    /// Fault 2: a word is stored in a state or local, or given by an output, that is not a word of its
    /// declared type.
    Range,
    /// Fault 3: the divisor of `div`, `mod` or `/` is zero.
    ZeroDivisor,
    /// Fault 4: a component accepts a length below 0 or above the step that it was asked for.
    Accept,
    /// Fault 5: `max` of a component gives a negative number.
    Max,
}

/// A literal as it was written: a truth value, or a number as the word of its digits without the point and
/// how many digits, from 0 to 9, follow the point.
#[derive(Clone, Copy, Debug, PartialEq, Eq)]
pub enum Literal {
    Truth(bool),
    Number { word: i64, decimals: u8 },
}

/// Why a literal has no word of a type.
#[derive(Clone, Copy, Debug, PartialEq, Eq)]
pub enum LiteralFault {
    /// A truth value for a number type, a number for Bool, or more decimals than the type has.
    Form,
    /// The form is right, and the word is not in the type's range.
    Range,
}

/// The lowest and the highest word of a type.
pub fn range(ty: Ty) -> (i64, i64)
    ensures low { result.0 ≡ lowest ty }
    ensures high { result.1 ≡ highest ty }
{
    match ty {
        Ty::Int8 => (-128, 127),
        Ty::UInt8 => (0, 255),
        Ty::Int16 => (-32_768, 32_767),
        Ty::UInt16 => (0, 65_535),
        Ty::Int32 => (-2_147_483_648, 2_147_483_647),
        Ty::UInt32 => (0, 4_294_967_295),
        Ty::Bool => (0, 1),
        Ty::Int64 | Ty::Fixed(_) => (i64::MIN, i64::MAX),
    }
}

/// Whether the word is one of the type's.
pub fn fits(ty: Ty, word: i64) -> bool
    ensures { result ≡ is_word_of ty word }
{
    match ty {
        // Every word is one of these types.
        Ty::Int64 | Ty::Fixed(_) => true,
        _ => {
            let (low, high) = range(ty);
            low <= word && word <= high
        }
    }
}
